// Laying a picture.
ghost use Rattle.std.specs.Prelude.{◌≡◌, false, is_ok};
ghost use Rattle.model.specs.Calls.{samples_of, laying, done};
ghost use Rattle.plates.specs.Shows.{seen, own_fault, Follows, fault_in, answered};

use crate::state::Plate;
use faults::fault::Fault;
use kernels::kernel::Kernel;
use model::plan::Plan;
use planes::plane::{Plane, Store};
use works::transform::Transform;

impl<S: Store, K: Kernel> Plate<S, K> {
    // Lays a picture of samples, row by row: writes every cell and leaves every bit set. It may come again.
    pub fn lay(&mut self, plan: Plan, samples: &[u16]) -> Result<(), Fault>
        ensures declines_by_its_own_table { fault_in result ≡ own_fault (seen S.Plane S.Store.own K.Kernel self.old) (laying plan (samples_of samples.now)) }
        ensures declined_leaves_the_store { is_ok result ≡ false → self.new.store ≡ self.old.store }
        ensures follows_the_plain_plate { Follows (laying plan (samples_of samples.now)) (seen S.Plane S.Store.own K.Kernel self.old) (seen S.Plane S.Store.own K.Kernel self.new) (answered (λ _. done) result) }
        ensures keeps_the_kernel { self.new.kernel ≡ self.old.kernel }
    {
        let levels = self.check_laying(plan, samples)?;
        let transform = Transform {
            kernel: &self.kernel,
            levels,
        };
        let _ = transform.lay(&mut self.store, samples);
        self.plan = Some(plan);
        Ok(())
    }
}
