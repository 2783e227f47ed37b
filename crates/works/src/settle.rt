// Settling: a rectangle of the picture is replaced, and the cells of its cone are put anew.
ghost use Rattle.std.specs.Prelude.{◌≡◌, ◌*◌, ◌≤◌, true, false, length, MatchOption};
ghost use Rattle.planes.specs.Rectangles.{leaves};
ghost use Rattle.overlays.specs.Samples.{samples_at};
ghost use Rattle.works.specs.Works.{SameSides, Settles, Settled, settles_there};

use crate::transform::Transform;
use cones::cone::Cone;
use kernels::kernel::Kernel;
use overlays::overlay::overlay;
use overlays::sources::ConeOf;
use planes::cell::Cell;
use planes::flat::FlatStore;
use planes::grid::is_covered;
use planes::plane::{Plane, Store};
use planes::rectangle::Rectangle;
use states::states::Cells;

// Whether a settlement can be made: the rectangle is in the store, there is a sample for each of its places, and the scratch has room
// for a flat store of the store's sides.
pub fn can_settle(
    rows: usize,
    columns: usize,
    rectangle: Rectangle,
    samples: usize,
    scratch: &[Cell],
) -> bool
    ensures is_whether_all_fits { result ≡ settles_there rows columns rectangle samples (length scratch.now) }
{
    !rectangle.leaves(rows, columns)
        && is_covered(rectangle.height, rectangle.width, samples)
        && FlatStore::fault(scratch, rows, columns).is_none()
}

impl<'k, K: Kernel> Transform<'k, K> {
    // Works out, in another store, the transform of a plane's picture with a rectangle replaced: the cells are copied and undone, the
    // samples are put, and all is lifted again.
    fn reworked<A: Plane, W: Store>(
        &self,
        from: &A,
        work: W,
        rectangle: Rectangle,
        samples: &[u16],
    ) -> W
        requires same_sides { SameSides (A.Plane.picture from.now) (W.Plane.picture work) }
        requires the_rectangle_is_inside { leaves (A.Plane.picture from.now).height (A.Plane.picture from.now).width rectangle ≡ false }
        requires enough_samples { rectangle.height * rectangle.width ≤ length samples.now }
        ensures has_the_same_sides { SameSides (A.Plane.picture from.now) (W.Plane.picture result) }
        ensures shows_the_edited_transform { Settles (K.Kernel.amounts self.now.kernel.now) self.now.levels.number rectangle (samples_at samples.now) (A.Plane.picture from.now) (W.Plane.picture result) }
    {
        let before = Cells::copy(work, from, self.levels).restore(self.kernel);
        before
            .replace(rectangle, samples)
            .lift(self.kernel, self.levels)
            .into_store()
    }

    // Settles: the cells of the rectangle's cone become those of the picture with the rectangle replaced by the samples, row by row. It
    // answers how many they are. Where a settlement cannot be made, it answers none and changes nothing. The scratch is left open.
    pub fn settle<S: Store>(
        &self,
        store: &mut S,
        rectangle: Rectangle,
        samples: &[u16],
        scratch: &mut [Cell],
    ) -> Option<usize>
        ensures settles_or_changes_nothing { MatchOption result
            ((settles_there (S.Plane.picture store.old).height (S.Plane.picture store.old).width rectangle (length samples.now) (length scratch.old) ≡ false)
            × (S.Plane.picture store.new ≡ S.Plane.picture store.old)
            × (S.Store.bits store.new ≡ S.Store.bits store.old)
            × (scratch.new ≡ scratch.old))
            (λ n. (settles_there (S.Plane.picture store.old).height (S.Plane.picture store.old).width rectangle (length samples.now) (length scratch.old) ≡ true)
            × Settled (K.Kernel.amounts self.now.kernel.now) self.now.levels.number rectangle (samples_at samples.now)
            (S.Plane.picture store.old) (S.Store.bits store.old) (S.Plane.picture store.new) (S.Store.bits store.new) n) }
        ensures leaves_what_lies_under { S.Store.frame false store.old store.new }
    {
        let rows = store.rows();
        let columns = store.columns();
        if !can_settle(rows, columns, rectangle, samples.len(), scratch) {
            return None;
        }
        let cone = Cone::of_rectangle(rows, columns, rectangle, self.levels)?;
        let work = FlatStore::new(scratch, rows, columns);
        let work = self.reworked(store, work, rectangle, samples);
        let count = overlay(store, &ConeOf { plane: &work, cone });
        Some(count as usize)
    }
}
