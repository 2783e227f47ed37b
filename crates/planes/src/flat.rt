// The flat store: a rectangle of cell records, row by row, in a caller's buffer.
ghost use Rattle.std.specs.Prelude.{◌≡◌, ◌≤◌, length, MatchResult, refl};
ghost use Rattle.faults.specs.declared.fault.Fault.TheVariants as Fault;
ghost use Rattle.std.proofs.Common.{◌∙◌};
ghost use Rattle.planes.specs.Planes.{Within};
ghost use Rattle.planes.specs.Flat.{flat_picture, flat_numbers, flat_bits, flat_fault, made_side, Clears, FlatFrame, flat_still, flat_onward};

use crate::cell::Cell;
use crate::grid::{Grid, is_covered};
use crate::plane::{Plane, Store};
use faults::fault::{Fault, Layer};

// The grid of cell records is the flat store: the owner of the buffer then knows what it holds afterwards.
pub type FlatStore<'a> = Grid<'a, Cell>;

impl<'a> Grid<'a, Cell> {
    // The fault that making a store would meet: a side that is 0 or over 4,096, then a buffer with too few records.
    // A question: its answer is the fault, and it cannot fail.
    pub fn fault(cells: &[Cell], rows: usize, columns: usize) -> Option<Fault>
        ensures is_the_first_that_holds { result ≡ flat_fault rows columns (length cells.now) }
    {
        if rows == 0 || rows > 4096 || columns == 0 || columns > 4096 {
            Some(Fault::Size(Layer::Plane))
        } else if !is_covered(rows, columns, cells.len()) {
            Some(Fault::StoreShort)
        } else {
            None
        }
    }

    // A store over the buffer, with no rows and no columns where there is a fault; every record stays as it is.
    pub fn new(cells: &'a mut [Cell], rows: usize, columns: usize) -> FlatStore<'a>
        ensures has_the_rows_or_none { result.rows ≡ made_side rows columns (length cells.old) rows }
        ensures has_the_columns_or_none { result.columns ≡ made_side rows columns (length cells.old) columns }
        ensures keeps_every_record { result.cells.now ≡ cells.old }
        ensures is_over_the_buffer { result.cells.ghost_name ≡ cells.entry.ghost_name }
    {
        let sound = FlatStore::fault(cells, rows, columns).is_none();
        let rows = if sound { rows } else { 0 };
        let columns = if sound { columns } else { 0 };
        Grid {
            cells,
            rows,
            columns,
        }
    }

    // The record of a place; declined exactly when the place is outside.
    fn record(&self, row: usize, column: usize) -> Result<Cell, Fault>
        ensures holds_the_number_and_the_bit { MatchResult result
            (λ cell. Within (flat_picture self.now.rows self.now.columns self.now.cells.now) row column
            × (cell.number ≡ flat_numbers self.now.rows self.now.columns self.now.cells.now row column)
            × (cell.bit ≡ flat_bits self.now.rows self.now.columns self.now.cells.now row column))
            (λ fault. (Within (flat_picture self.now.rows self.now.columns self.now.cells.now) row column → ⊥) × (fault ≡ Fault.Outside)) }
    {
        self.get(row, column).ok_or(Fault::Outside)
    }
}

// Unsets the bits of the first records.
fn clear_front(cells: &mut [Cell], count: usize)
    requires { count ≤ length cells.old }
    ensures clears_the_front { Clears count cells.old cells.new }
{
    for cell in &mut cells[..count] {
        *cell = cell.cleared();
    }
}

impl<'a> Plane for Grid<'a, Cell> {
    ghost picture = { λ s. flat_picture s.rows s.columns s.cells.now };

    fn rows(&self) -> usize {
        self.height()
    }

    fn columns(&self) -> usize {
        self.width()
    }

    fn read(&self, row: usize, column: usize) -> Result<i32, Fault> {
        Ok(self.record(row, column)?.number)
    }
}

impl<'a> Store for Grid<'a, Cell> {
    ghost bits = { λ s. flat_bits s.rows s.columns s.cells.now };

    // The buffer and the sides stay, and so do the records beyond the rectangle.
    ghost frame = { λ cleared s t. (t.cells.ghost_name ≡ s.cells.ghost_name)
        × FlatFrame s.rows s.columns s.cells.now t.rows t.columns t.cells.now };

    ghost still = { λ cleared s. (refl, flat_still s.rows s.columns s.cells.now) };

    ghost onward = { λ early late s t u a b. (
      b.0 ∙ a.0,
      flat_onward s.rows s.columns s.cells.now t.rows t.columns t.cells.now u.rows u.columns u.cells.now a.1 b.1,
    ) };

    fn put(&mut self, row: usize, column: usize, number: i32) -> Result<(), Fault> {
        self.set(row, column, Cell::changed(number))
            .ok_or(Fault::Outside)
    }

    fn bit(&self, row: usize, column: usize) -> Result<bool, Fault> {
        Ok(self.record(row, column)?.bit)
    }

    fn clear(&mut self) {
        let area = self.area();
        clear_front(self.cells, area);
    }
}
