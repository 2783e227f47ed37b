// A store as lines of text: its sides, and its cells row by row.
ghost use Rattle.std.specs.Prelude.{◌≡◌, ◌<◌, Some, IfOk, string_bytes};
ghost use Rattle.answers.specs.Stores.{gap_text, star_text, cell_text, row_line, store_text};

use planes::plane::{Plane, Store};
use std::alloc::{AllocError, Global};
use std::fmt;

// A space between two cells of a row.
fn gap(column: usize) -> &'static str
    ensures is_a_space_but_in_the_first_column { result.now ≡ gap_text column }
{
    if column == 0 { "" } else { " " }
}

// A star where a bit is set.
fn star(bit: bool) -> &'static str
    ensures is_a_star_where_the_bit_is_set { result.now ≡ star_text bit }
{
    if bit { "*" } else { "" }
}

// A cell in its row.
#[derive(Clone, Copy)]
struct CellText {
    column: usize,
    number: i32,
    bit: bool,
}

impl fmt::Display for CellText {
    ghost output = { λ cell. Some (cell_text cell.column cell.number cell.bit) };

    fn fmt<W: fmt::Write>(&self, f: &mut fmt::Formatter<W>) -> fmt::Result {
        let number = self.number;
        write!(f, "{}{number}{}", gap(self.column), star(self.bit))
    }
}

// A row of a store.
#[derive(Drop)]
struct RowLine<'a, S: Store> {
    store: &'a S,
    row: usize,
    ghost is_inside: { row < (S.Plane.picture store.now).height },
}

impl<S: Store> fmt::Display for RowLine<'_, S> {
    ghost output = { λ line. Some (row_line (S.Plane.picture line.store.now).width (S.Plane.picture line.store.now).number (S.Store.bits line.store.now) line.row) };

    fn fmt<W: fmt::Write>(&self, f: &mut fmt::Formatter<W>) -> fmt::Result {
        for column in 0..self.store.columns() {
            let number = self.store.read(self.row, column).unwrap();
            let bit = self.store.bit(self.row, column).unwrap();
            CellText {
                column,
                number,
                bit,
            }
            .fmt(f)?;
        }
        writeln!(f)
    }
}

// The rows and columns of a store, and then a line for each row.
#[derive(Drop)]
struct StoreText<'a, S: Store>(&'a S);

impl<S: Store> fmt::Display for StoreText<'_, S> {
    ghost output = { λ text. Some (store_text (S.Plane.picture text.0.now).height (S.Plane.picture text.0.now).width (S.Plane.picture text.0.now).number (S.Store.bits text.0.now)) };

    fn fmt<W: fmt::Write>(&self, f: &mut fmt::Formatter<W>) -> fmt::Result {
        let rows = self.0.rows();
        let columns = self.0.columns();
        writeln!(f, "store {rows} {columns}")?;
        for row in 0..rows {
            RowLine { store: self.0, row }.fmt(f)?;
        }
        Ok(())
    }
}

// The rows and columns of a store, and then a line for each row.
pub fn store_text<S: Store>(heap: Global, store: &S) -> Result<String, AllocError>
    ensures names_every_cell { IfOk result (λ s. string_bytes s ≡ store_text (S.Plane.picture store.now).height (S.Plane.picture store.now).width (S.Plane.picture store.now).number (S.Store.bits store.now)) }
{
    StoreText(store).to_string(heap)
}
