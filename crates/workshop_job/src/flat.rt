// A list of calls on a plate over a blank flat store.
ghost use Rattle.std.specs.Prelude.{◌≡◌, replicate, IfOk};
ghost use Rattle.planes.specs.Flat.{blank};
ghost use Rattle.workshop_job.specs.Performances.{PerformedFlat, records};

use crate::perform::perform;
use answers::lines::fault_line;
use kernels::choice::KernelChoice;
use planes::cell::Cell;
use planes::flat::FlatStore;
use plates::calls::Turn;
use scripts::script::Ending;
use std::alloc::{AllocError, Global};

// How many records a store of these sides has; none where a side is too long for any.
fn records(rows: usize, columns: usize) -> usize
    ensures is_the_area_of_a_store { result ≡ records rows columns }
{
    if rows <= 4096 && columns <= 4096 {
        rows * columns
    } else {
        0
    }
}

// The records of a store that is just made.
fn blank_cells(heap: Global, rows: usize, columns: usize) -> Result<Vec<Cell>, AllocError>
    ensures are_blank { IfOk result (λ v. v.items ≡ replicate (records rows columns) blank) }
{
    vec![in heap; Cell::BLANK; records(rows, columns)]
}

// Executes the calls on a plate over a flat store whose cells are 0 and whose bits are unset; where there can be no such store, its fault
// is all that is printed.
pub fn perform_flat(
    heap: Global,
    number: u32,
    kernel: KernelChoice,
    rows: usize,
    columns: usize,
    turns: &mut [Turn],
    endings: &[Ending],
) -> Result<Vec<u8>, AllocError>
    ensures after_every_call_nothing_differs { IfOk result (λ v. PerformedFlat number kernel rows columns turns.old turns.new endings.now v.items) }
{
    let mut cells = blank_cells(heap, rows, columns)?;
    match FlatStore::fault(&cells, rows, columns) {
        Some(fault) => Ok(fault_line(heap, fault)?.into_bytes()),
        None => {
            let store = FlatStore::new(&mut cells, rows, columns);
            let (text, _store) = perform(heap, number, store, kernel, turns, endings)?;
            Ok(text)
        }
    }
}
