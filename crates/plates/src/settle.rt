// Settling the lease that is out.
ghost use Rattle.std.specs.Prelude.{◌≡◌, ◌≤◌, false, length, is_ok};
ghost use Rattle.model.specs.Calls.{samples_of, settling, settled};
ghost use Rattle.model.specs.Plain.{ends_the_lease};
ghost use Rattle.plates.specs.Shows.{seen, own_fault, Follows, fault_in, answered};

use crate::lease::Lease;
use crate::state::Plate;
use faults::fault::Fault;
use kernels::kernel::Kernel;
use planes::cell::Cell;
use planes::level::Level;
use planes::plane::{Plane, Store};
use works::transform::Transform;

// Whether a fault of a settlement ends the lease all the same.
fn is_end_of_lease(fault: Fault) -> bool
    ensures tells_whether_the_lease_ends { result ≡ ends_the_lease fault }
{
    matches!(
        fault,
        Fault::SampleCount | Fault::Sample(_, _) | Fault::ScratchShort
    )
}

impl<S: Store, K: Kernel> Plate<S, K> {
    // Replaces the leased rectangle by the samples, row by row: puts every cell of its cone and no other, and answers their number.
    pub fn settle(
        &mut self,
        lease: Lease,
        samples: &[u16],
        scratch: &mut [Cell],
    ) -> Result<usize, Fault>
        ensures declines_by_its_own_table { fault_in result ≡ own_fault (seen S.Plane S.Store.own K.Kernel self.old) (settling lease.plate lease.serial (samples_of samples.now) (length scratch.old)) }
        ensures declined_leaves_the_store { is_ok result ≡ false → self.new.store ≡ self.old.store }
        ensures declined_leaves_the_scratch { is_ok result ≡ false → scratch.new ≡ scratch.old }
        ensures follows_the_plain_plate { Follows (settling lease.plate lease.serial (samples_of samples.now) (length scratch.old)) (seen S.Plane S.Store.own K.Kernel self.old) (seen S.Plane S.Store.own K.Kernel self.new) (answered settled result) }
        ensures keeps_the_kernel { self.new.kernel ≡ self.old.kernel }
    {
        let (plate, serial) = lease.spent();
        let (plan, rectangle) = match self.check_settling(plate, serial, samples, scratch.len()) {
            Ok(leased) => leased,
            // not `?`: for some faults the lease ends on the way out
            Err(fault) => {
                if is_end_of_lease(fault) {
                    self.lease = None;
                }
                return Err(fault);
            }
        };
        self.lease = None;
        let transform = Transform {
            kernel: &self.kernel,
            levels: Level {
                number: plan.levels,
            },
        };
        let count = transform.settle(&mut self.store, rectangle, samples, scratch);
        Ok(count.unwrap_or(0))
    }
}
