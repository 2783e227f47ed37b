// The sheet of a picture: laid on a store, and all its cells written.
ghost use Rattle.std.specs.Prelude.{◌≡◌, ◌+◌, ◌*◌, ◌≤◌, true, false, length, nat_lt};
ghost use Rattle.model.specs.Calls.{samples_of};
ghost use Rattle.model.specs.Plain.{first_over};
ghost use Rattle.plates.specs.Plans.{lawful_plan};
ghost use Rattle.sheet_job.specs.Reports.{laid_sheet, Wrote};

use faults::fault::Fault;
use kernels::five_three::FiveThree;
use model::plan::Plan;
use planes::plane::Store;
use plates::state::Plate;

// The plate's number, which no sheet tells, and the issue of its sheet.
const PLATE: u32 = 1;

const ISSUE: u16 = 1;

// Lays samples on a store by the 5/3 kernel, and writes the sheet of all cells into the front of an output.
pub(crate) fn lay_and_write<S: Store + Drop>(
    store: S,
    plan: Plan,
    samples: &[u16],
    out: &mut [u8],
) -> Result<usize, Fault>
    requires its_rows { (S.Plane.picture store).height ≡ plan.rows }
    requires its_columns { (S.Plane.picture store).width ≡ plan.columns }
    requires a_lawful_plan { lawful_plan plan ≡ true }
    requires all_samples { length samples.now ≡ plan.rows * plan.columns }
    requires none_over { nat_lt (first_over plan.top (samples_of samples.now)) (length samples.now) ≡ false }
    requires room { 38 + 23 * (plan.rows * plan.columns) ≤ length out.old }
    ensures writes_the_sheet { Wrote (laid_sheet plan samples.now) out.old out.new result }
{
    let mut plate = Plate::new(PLATE, store, FiveThree);
    plate.lay(plan, samples)?;
    plate.sheet(ISSUE, out)
}
