// The sheet of a plate's changed cells.
ghost use Rattle.std.specs.Prelude.{◌≡◌, true, false, length, is_ok, IfOk};
ghost use Rattle.frames.specs.Frames.{over};
ghost use Rattle.faults.specs.Tables.{first_fault};
ghost use Rattle.model.specs.Plain.{Setting, Plain};
ghost use Rattle.plates.specs.Plans.{lawful_plan};
ghost use Rattle.plates.specs.Shows.{seen, Shows, fault_in};
ghost use Rattle.plates.specs.Sheets.{head_of as sheet_head, sheet_table, own_sheet, plain_sheet, Sheeted};

use crate::state::Plate;
use faults::fault::{Fault, Layer};
use kernels::kernel::Kernel;
use model::plan::Plan;
use planes::plane::Store;
use sheets::frame::Head;
use sheets::sheet::write_sheet;

// What a sheet says of a plate with a plan.
fn head_of(issue: u16, code: u8, plan: Plan) -> Head
    requires { lawful_plan plan ≡ true }
    ensures says_the_plan { result ≡ sheet_head issue code plan }
{
    Head {
        issue,
        rows: plan.rows as u16,
        columns: plan.columns as u16,
        top: plan.top as u16,
        levels: plan.levels as u8,
        code,
    }
}

impl<S: Store, K: Kernel> Plate<S, K> {
    // Writes the sheet of the changed cells into the front of the output, and answers its length.
    pub fn sheet(&self, issue: u16, out: &mut [u8]) -> Result<usize, Fault>
        ensures declines_by_its_own_table { fault_in result ≡ first_fault (sheet_table self.now.plan (own_sheet issue (K.Kernel.code self.now.kernel) (seen S.Plane S.Store.own K.Kernel self.now)) (length out.old)) }
        ensures declined_leaves_the_output { is_ok result ≡ false → out.new ≡ out.old }
        ensures writes_the_sheet_of_its_cells { IfOk result (λ n. (n ≡ length (own_sheet issue (K.Kernel.code self.now.kernel) (seen S.Plane S.Store.own K.Kernel self.now)))
            × (out.new ≡ over out.old 0 (own_sheet issue (K.Kernel.code self.now.kernel) (seen S.Plane S.Store.own K.Kernel self.now)))) }
        ensures writes_the_sheet_of_the_plain_plate { (s : Setting) (p : Plain) → Shows s p (seen S.Plane S.Store.own K.Kernel self.now)
            → Sheeted p.plan (plain_sheet issue (K.Kernel.code self.now.kernel) s p) out.old out.new result }
    {
        let plan = self.plan.ok_or(Fault::Unlaid)?;
        let head = head_of(issue, self.kernel.code(), plan);
        write_sheet(&self.store, head, out).ok_or(Fault::OutputShort(Layer::Plate))
    }
}
