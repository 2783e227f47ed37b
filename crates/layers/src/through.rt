// Putting through a level layer and taking the store back: over any store, and in a buffer of records.
ghost use Rattle.std.specs.Prelude.{◌≡◌, ◌*◌, ◌^◌, false, length};
ghost use Rattle.std.specs.Result.{result_err};
ghost use Rattle.planes.specs.Flat.{flat_fault, made_side};
ghost use Rattle.layers.specs.Through.{PutInside, MarkedInside, PutsRecord};

use crate::level::LevelLayer;
use faults::fault::Fault;
use planes::cell::Cell;
use planes::flat::FlatStore;
use planes::level::Level;
use planes::places::LatticePlace;
use planes::plane::{Plane, Store};

// Puts a number at a place of a level's lattice, where that is inside.
pub fn put_through<S: Store>(store: S, level: Level, at: LatticePlace, number: i32) -> S
    ensures writes_the_number_inside { PutInside (S.Plane.picture store) (at.row * 2 ^ level.number) (at.column * 2 ^ level.number) number (S.Plane.picture result) }
    ensures sets_the_bit_inside { MarkedInside (S.Plane.picture store) (S.Store.bits store) (at.row * 2 ^ level.number) (at.column * 2 ^ level.number) (S.Store.bits result) }
    ensures leaves_what_lies_under { S.Store.frame false store result }
{
    let mut layer = LevelLayer::new(store);
    layer.go_to(level);
    let _ = layer.put(at.row, at.column, number);
    layer.into_below()
}

// The flat store over a buffer of records, after the put.
fn store_after<'a>(
    cells: &'a mut [Cell],
    rows: usize,
    columns: usize,
    level: Level,
    at: LatticePlace,
    number: i32,
) -> FlatStore<'a>
    ensures is_over_the_buffer { result.cells.ghost_name ≡ cells.entry.ghost_name }
    ensures puts_the_record { PutsRecord (made_side rows columns (length cells.old) rows) (made_side rows columns (length cells.old) columns)
        (at.row * 2 ^ level.number) (at.column * 2 ^ level.number) number cells.old result.cells.now }
{
    put_through(FlatStore::new(cells, rows, columns), level, at, number)
}

// Puts a number at a place of a level's lattice, in a buffer that holds the plate's cells row by row;
// declined by the fault of the flat store, and then the buffer stays as it was.
pub fn put_record(
    cells: &mut [Cell],
    rows: usize,
    columns: usize,
    level: Level,
    at: LatticePlace,
    number: i32,
) -> Result<(), Fault>
    ensures is_the_stores_fault { result_err result ≡ flat_fault rows columns (length cells.old) }
    ensures puts_the_record { PutsRecord (made_side rows columns (length cells.old) rows) (made_side rows columns (length cells.old) columns)
        (at.row * 2 ^ level.number) (at.column * 2 ^ level.number) number cells.old cells.new }
{
    // what is an answer there is an error here
    if let Some(fault) = FlatStore::fault(cells, rows, columns) {
        return Err(fault);
    }
    let _store = store_after(cells, rows, columns, level, at, number);
    Ok(())
}
