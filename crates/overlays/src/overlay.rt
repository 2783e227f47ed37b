// The one double loop: where a source has a number for a place of a store, it is put and counted.
ghost use Rattle.std.specs.Prelude.{◌≡◌, ◌<◌, Bool, false, ℤ, if◌then◌else◌};
ghost use Rattle.planes.specs.Planes.{Cells, Within};
ghost use Rattle.wavelets.specs.Counts.{count_line, count_cells};
ghost use Rattle.overlays.specs.Overlays.{Offers, put_at, mark_at, in_row, overlaid_picture, overlaid_bits};

use planes::plane::{Plane, Store};

// Numbers for some places.
pub trait Source {
    // The places that it has a number for.
    ghost test: { Self → Cells Bool };

    // The number that it has for each of them.
    ghost value: { Self → Cells ℤ };

    fn offer(&self, row: usize, column: usize) -> Option<i32>
        ensures answers_the_number_where_there_is_one { Offers (test self.now row column) (value self.now row column) result };
}

// Puts what the source has for one place, and counts it.
fn overlay_place<B: Store, V: Source>(to: &mut B, source: &V, row: usize, column: usize) -> usize
    requires inside { Within (B.Plane.picture to.old) row column }
    ensures puts_the_number { B.Plane.picture to.new ≡ put_at (V.Source.test source.now row column) (V.Source.value source.now row column) row column (B.Plane.picture to.old) }
    ensures sets_the_bit { B.Store.bits to.new ≡ mark_at (V.Source.test source.now row column) row column (B.Store.bits to.old) }
    ensures leaves_what_lies_under { B.Store.frame false to.old to.new }
    ensures counts_the_put { result ≡ (if V.Source.test source.now row column then 1 else 0) }
{
    match source.offer(row, column) {
        Some(number) => {
            let _ = to.put(row, column, number);
            1
        }
        None => 0,
    }
}

// Puts what the source has for the places of one row, and counts them.
fn overlay_row<B: Store, V: Source>(to: &mut B, source: &V, row: usize, columns: usize) -> usize
    requires a_row { row < (B.Plane.picture to.old).height }
    requires every_column { columns ≡ (B.Plane.picture to.old).width }
    ensures puts_the_rows_numbers { B.Plane.picture to.new ≡ overlaid_picture (in_row row (V.Source.test source.now)) (V.Source.value source.now) (B.Plane.picture to.old) }
    ensures sets_their_bits { B.Store.bits to.new ≡ overlaid_bits (B.Plane.picture to.old) (in_row row (V.Source.test source.now)) (B.Store.bits to.old) }
    ensures leaves_what_lies_under { B.Store.frame false to.old to.new }
    ensures counts_the_puts { result ≡ count_line columns (V.Source.test source.now row) }
{
    let mut count = 0;
    for column in 0..columns {
        count += overlay_place(to, source, row, column);
    }
    count
}

// The same for the places of every row.
fn overlay_rows<B: Store, V: Source>(to: &mut B, source: &V, rows: usize, columns: usize) -> u128
    requires every_row { rows ≡ (B.Plane.picture to.old).height }
    requires every_column { columns ≡ (B.Plane.picture to.old).width }
    ensures puts_the_sources_numbers { B.Plane.picture to.new ≡ overlaid_picture (V.Source.test source.now) (V.Source.value source.now) (B.Plane.picture to.old) }
    ensures sets_their_bits { B.Store.bits to.new ≡ overlaid_bits (B.Plane.picture to.old) (V.Source.test source.now) (B.Store.bits to.old) }
    ensures leaves_what_lies_under { B.Store.frame false to.old to.new }
    ensures counts_the_puts { result ≡ count_cells rows columns (V.Source.test source.now) }
{
    let mut count: u128 = 0;
    for row in 0..rows {
        count += overlay_row(to, source, row, columns) as u128;
    }
    count
}

// Puts what the source has for the places of a store, row by row, and counts the puts; 128 bits hold any such count.
pub fn overlay<B: Store, V: Source>(to: &mut B, source: &V) -> u128
    ensures puts_the_sources_numbers { B.Plane.picture to.new ≡ overlaid_picture (V.Source.test source.now) (V.Source.value source.now) (B.Plane.picture to.old) }
    ensures sets_their_bits { B.Store.bits to.new ≡ overlaid_bits (B.Plane.picture to.old) (V.Source.test source.now) (B.Store.bits to.old) }
    ensures leaves_what_lies_under { B.Store.frame false to.old to.new }
    ensures counts_the_puts { result ≡ count_cells (B.Plane.picture to.old).height (B.Plane.picture to.old).width (V.Source.test source.now) }
{
    let rows = to.rows();
    let columns = to.columns();
    overlay_rows(to, source, rows, columns)
}
