// Laying: every sample is written, row by row, and the plane is lifted.
ghost use Rattle.std.specs.Prelude.{◌≡◌, ◌*◌, true, false, length, MatchOption, nat_le};
ghost use Rattle.overlays.specs.Samples.{samples_at};
ghost use Rattle.works.specs.Works.{Laid};

use crate::transform::Transform;
use kernels::kernel::Kernel;
use planes::grid::is_covered;
use planes::plane::{Plane, Store};
use states::lent::Lent;
use states::states::Samples;

impl<'k, K: Kernel> Transform<'k, K> {
    // Writes the samples and lifts them, in a store by value.
    fn laid<S: Store>(&self, store: S, samples: &[u16]) -> S
        ensures lays { Laid (K.Kernel.amounts self.now.kernel.now) self.now.levels.number (samples_at samples.now) (S.Plane.picture store) (S.Plane.picture result) (S.Store.bits result) }
        ensures leaves_what_lies_under { S.Store.frame false store result }
    {
        Samples::write(store, samples)
            .lift(self.kernel, self.levels)
            .into_store()
    }

    // The same in a store that is lent.
    fn laid_lent<'a, S: Store>(&self, store: &'a mut S, samples: &[u16]) -> Lent<'a, S>
        ensures is_the_same_loan { result.below.ghost_name ≡ store.entry.ghost_name }
        ensures lays { Laid (K.Kernel.amounts self.now.kernel.now) self.now.levels.number (samples_at samples.now) (S.Plane.picture store.old) (S.Plane.picture result.below.now) (S.Store.bits result.below.now) }
        ensures leaves_what_lies_under { S.Store.frame false store.old result.below.now }
    {
        self.laid(Lent { below: store }, samples)
    }

    // Lays the picture that samples make, row by row. Where there are fewer samples than places, it answers none and changes nothing.
    pub fn lay<S: Store>(&self, store: &mut S, samples: &[u16]) -> Option<()>
        ensures lays_or_changes_nothing { MatchOption result
            ((nat_le ((S.Plane.picture store.old).height * (S.Plane.picture store.old).width) (length samples.now) ≡ false)
            × (S.Plane.picture store.new ≡ S.Plane.picture store.old)
            × (S.Store.bits store.new ≡ S.Store.bits store.old))
            (λ _. (nat_le ((S.Plane.picture store.old).height * (S.Plane.picture store.old).width) (length samples.now) ≡ true)
            × Laid (K.Kernel.amounts self.now.kernel.now) self.now.levels.number (samples_at samples.now) (S.Plane.picture store.old) (S.Plane.picture store.new) (S.Store.bits store.new)) }
        ensures leaves_what_lies_under { S.Store.frame false store.old store.new }
    {
        if !is_covered(store.rows(), store.columns(), samples.len()) {
            return None;
        }
        let _laid = self.laid_lent(store, samples);
        Some(())
    }
}
