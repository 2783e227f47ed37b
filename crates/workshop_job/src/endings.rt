// What a plate prints after the last call: the sheets that were asked for.
ghost use Rattle.std.specs.Prelude.{◌≡◌, IfOk};
ghost use Rattle.plates.specs.Shows.{seen};
ghost use Rattle.workshop_job.specs.Endings.{sheet_room, sheet_lines, ending_lines, endings_lines};

use answers::lines::fault_line;
use kernels::kernel::Kernel;
use planes::plane::Store;
use plates::state::Plate;
use scripts::script::Ending;
use std::alloc::{AllocError, Global};

// No sheet is longer than that of the largest plate.
const LONGEST_SHEET: usize = 385_876_006;

fn sheet_room(room: usize) -> usize
    ensures is_cut_to_the_longest_sheet { result ≡ sheet_room room }
{
    room.min(LONGEST_SHEET)
}

// The lines of a sheet, or the fault's line where it is declined.
fn sheet_lines<S: Store, K: Kernel>(
    heap: Global,
    plate: &Plate<S, K>,
    issue: u16,
    room: usize,
) -> Result<Vec<u8>, AllocError>
    ensures are_the_sheet_or_its_fault { IfOk result (λ v. v.items ≡ sheet_lines (K.Kernel.code plate.now.kernel) (seen S.Plane S.Store.own K.Kernel plate.now) issue room) }
{
    let mut lines = vec![in heap; 0u8; sheet_room(room)]?;
    match plate.sheet(issue, &mut lines) {
        Ok(length) => {
            lines.truncate(length);
            Ok(lines)
        }
        Err(fault) => Ok(fault_line(heap, fault)?.into_bytes()),
    }
}

fn ending_lines<S: Store, K: Kernel>(
    heap: Global,
    plate: &Plate<S, K>,
    ending: &Ending,
) -> Result<Vec<u8>, AllocError>
    ensures are_those_of_a_sheet { IfOk result (λ v. v.items ≡ ending_lines (K.Kernel.code plate.now.kernel) (seen S.Plane S.Store.own K.Kernel plate.now) ending.now) }
{
    match ending {
        Ending::Sheet { issue, room } => sheet_lines(heap, plate, *issue, *room),
        Ending::Save { path: _ } => Ok(Vec::new(heap)),
    }
}

// The lines of the sheets that a script asks for, in their order.
pub(crate) fn endings_lines<S: Store, K: Kernel>(
    heap: Global,
    plate: &Plate<S, K>,
    endings: &[Ending],
) -> Result<Vec<u8>, AllocError>
    ensures are_those_of_the_sheets { IfOk result (λ v. v.items ≡ endings_lines (K.Kernel.code plate.now.kernel) (seen S.Plane S.Store.own K.Kernel plate.now) endings.now) }
{
    let mut lines = Vec::new(heap);
    for ending in endings {
        lines.extend_from_slice(&ending_lines(heap, plate, ending)?)?;
    }
    Ok(lines)
}
