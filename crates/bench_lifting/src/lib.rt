// The transforms at the flat store, for a harness in C: forward and inverse, over any kernel.
#![tactic(auto)]

ghost use Rattle.std.specs.Prelude.{◌≡◌, min};
ghost use Rattle.lifting.specs.Passes.{worked, cell_forward, cell_undo};
ghost use Rattle.bench_lifting.specs.Buffers.{shown};

use kernels::kernel::Kernel;
use lifting::passes::{forward, inverse};
use planes::cell::Cell;
use planes::flat::FlatStore;
use planes::level::Level;

// The level of a number, and the last one for a larger number.
fn level_of(number: usize) -> Level
    ensures is_the_number_or_five { result.number ≡ min number 5 }
{
    Level {
        number: number.min(5),
    }
}

// The flat store over a buffer of records, lifted.
#[tactic(auto, using(crate::proofs::Buffers::shown_worked))]
fn lifted<'a, K: Kernel>(
    cells: &'a mut [Cell],
    rows: usize,
    columns: usize,
    kernel: &K,
    levels: usize,
) -> FlatStore<'a>
    ensures is_over_the_buffer { result.cells.ghost_name ≡ cells.entry.ghost_name }
    ensures lifts_the_records { shown rows columns result.cells.now ≡ worked (cell_forward (K.Kernel.amounts kernel.now) (min levels 5)) (shown rows columns cells.old) }
{
    forward(
        FlatStore::new(cells, rows, columns),
        kernel,
        level_of(levels),
    )
}

// Lifts the records of a plate in place.
pub fn lift<K: Kernel>(cells: &mut [Cell], rows: usize, columns: usize, kernel: &K, levels: usize)
    ensures lifts_the_records { shown rows columns cells.new ≡ worked (cell_forward (K.Kernel.amounts kernel.now) (min levels 5)) (shown rows columns cells.old) }
{
    let _store = lifted(cells, rows, columns, kernel, levels);
}

// The flat store over a buffer of records, with every level undone.
#[tactic(auto, using(crate::proofs::Buffers::shown_worked))]
fn undone<'a, K: Kernel>(
    cells: &'a mut [Cell],
    rows: usize,
    columns: usize,
    kernel: &K,
    levels: usize,
) -> FlatStore<'a>
    ensures is_over_the_buffer { result.cells.ghost_name ≡ cells.entry.ghost_name }
    ensures undoes_every_level { shown rows columns result.cells.now ≡ worked (cell_undo (K.Kernel.amounts kernel.now) (min levels 5) 0) (shown rows columns cells.old) }
{
    inverse(
        FlatStore::new(cells, rows, columns),
        kernel,
        level_of(levels),
        level_of(0),
    )
}

// Undoes every level again.
pub fn undo<K: Kernel>(cells: &mut [Cell], rows: usize, columns: usize, kernel: &K, levels: usize)
    ensures undoes_every_level { shown rows columns cells.new ≡ worked (cell_undo (K.Kernel.amounts kernel.now) (min levels 5) 0) (shown rows columns cells.old) }
{
    let _store = undone(cells, rows, columns, kernel, levels);
}
