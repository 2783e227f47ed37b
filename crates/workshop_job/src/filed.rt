// A list of calls on a plate over a tile file.
ghost use Rattle.std.specs.Prelude.{◌≡◌, IfOk, None, vec_items};
ghost use Rattle.std.specs.Option.{option_map};
ghost use Rattle.answers.specs.Lines.{fault_line};
ghost use Rattle.workshop_job.specs.Files.{new_length, PerformedFile, PerformedNewFile};

use crate::perform::perform;
use answers::lines::fault_line;
use faults::fault::Fault;
use kernels::choice::KernelChoice;
use plates::calls::Turn;
use scripts::script::Ending;
use std::alloc::{AllocError, Global};
use tile_bytes::sides::Sides;
use tiles::file::TileFile;
use tiles::formatting::format;

// What was printed, and the bytes of the file as the last call left them; none where the file could not be opened or made.
#[derive(Drop)]
pub struct Performance {
    pub text: Vec<u8>,
    pub file: Option<Vec<u8>>,
}

// What is printed where there is no file: the fault alone.
fn declined(heap: Global, fault: Fault) -> Result<Performance, AllocError>
    ensures prints_the_fault { IfOk result (λ x. (x.text.items ≡ fault_line fault) × (x.file ≡ None)) }
{
    let text = fault_line(heap, fault)?.into_bytes();
    Ok(Performance { text, file: None })
}

// Executes the calls on a plate over a tile file; where the bytes are no such file, its fault is all that is printed.
pub fn perform_file(
    heap: Global,
    number: u32,
    kernel: KernelChoice,
    bytes: Vec<u8>,
    turns: &mut [Turn],
    endings: &[Ending],
) -> Result<Performance, AllocError>
    ensures after_every_call_nothing_differs { IfOk result (λ x. PerformedFile number kernel bytes.items turns.old turns.new endings.now x.text.items (option_map vec_items x.file)) }
{
    match tiles::opening::fault(&bytes) {
        Some(fault) => declined(heap, fault),
        None => {
            let store = TileFile::open(bytes);
            let (text, store) = perform(heap, number, store, kernel, turns, endings)?;
            let file = Some(store.into_bytes());
            Ok(Performance { text, file })
        }
    }
}

// How many bytes a file of these sides has; none where a side is too long for any.
fn new_length(rows: usize, columns: usize) -> usize
    ensures is_the_length_of_a_file { result ≡ new_length rows columns }
{
    Sides::new(rows, columns).map_or(0, |sides| sides.file_length())
}

// Executes the calls on a plate over a new tile file, whose cells are 0 and whose bits are unset; where there can be no such file, its fault
// is all that is printed.
pub fn perform_new_file(
    heap: Global,
    number: u32,
    kernel: KernelChoice,
    rows: usize,
    columns: usize,
    turns: &mut [Turn],
    endings: &[Ending],
) -> Result<Performance, AllocError>
    ensures after_every_call_nothing_differs { IfOk result (λ x. PerformedNewFile number kernel rows columns turns.old turns.new endings.now x.text.items (option_map vec_items x.file)) }
{
    let mut bytes = vec![in heap; 0u8; new_length(rows, columns)]?;
    match format(&mut bytes, rows, columns) {
        Ok(()) => perform_file(heap, number, kernel, bytes, turns, endings),
        Err(fault) => declined(heap, fault),
    }
}
