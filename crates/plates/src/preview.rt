// Previewing a rectangle of the picture's resolution at the level in hand.
ghost use Rattle.std.specs.Prelude.{◌≡◌, ℕ, ◌*◌, ◌≤◌, true, false, length, pos, is_ok, slice_index_or};
ghost use Rattle.model.specs.Calls.{previewing, done};
ghost use Rattle.model.specs.Plain.{Setting, Plain};
ghost use Rattle.plates.specs.Shows.{seen, own_fault, Shows, Follows, fault_in, answered, lattice_rectangle, preview_differences};

use crate::state::Plate;
use faults::fault::Fault;
use kernels::kernel::Kernel;
use model::card::Card;
use planes::cell::Cell;
use planes::level::Level;
use planes::places::LatticePlace;
use planes::plane::{Plane, Store};
use planes::rectangle::Rectangle;
use works::transform::Transform;

impl<S: Store, K: Kernel> Plate<S, K> {
    // Writes a rectangle of the picture's resolution, row by row, into the front of the output.
    pub fn preview(
        &self,
        card: &Card,
        first: LatticePlace,
        height: usize,
        width: usize,
        scratch: &mut [Cell],
        output: &mut [i32],
    ) -> Result<(), Fault>
        ensures declines_by_its_own_table { fault_in result ≡ own_fault (seen S.Plane S.Store.own K.Kernel self.now) (previewing card.now (lattice_rectangle first height width) (length scratch.old) (length output.old)) }
        ensures declined_leaves_the_scratch { is_ok result ≡ false → scratch.new ≡ scratch.old }
        ensures declined_leaves_the_output { is_ok result ≡ false → output.new ≡ output.old }
        ensures leaves_the_rest_of_the_output { (m : ℕ) → height * width ≤ m → slice_index_or output.new m (pos 0) ≡ slice_index_or output.old m (pos 0) }
        ensures follows_the_plain_plate { Follows (previewing card.now (lattice_rectangle first height width) (length scratch.old) (length output.old)) (seen S.Plane S.Store.own K.Kernel self.now) (seen S.Plane S.Store.own K.Kernel self.now) (answered (λ _. done) result) }
        ensures shows_the_resolution { (s : Setting) (p : Plain) → Shows s p (seen S.Plane S.Store.own K.Kernel self.now) → is_ok result ≡ true → preview_differences s p card.now (lattice_rectangle first height width) output.new ≡ 0 }
    {
        let rectangle = Rectangle {
            first_row: first.row,
            first_column: first.column,
            height,
            width,
        };
        let (plan, level) = self.check_preview(card, rectangle, scratch.len(), output.len())?;
        let transform = Transform {
            kernel: &self.kernel,
            levels: Level {
                number: plan.levels,
            },
        };
        let _ = transform.preview(&self.store, level, rectangle, scratch, output);
        Ok(())
    }
}
