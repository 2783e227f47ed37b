// Copying a rectangle of any plane out, row by row.
ghost use Rattle.std.specs.Prelude.{◌≡◌, ◌+◌, ◌*◌, ◌<◌, length};
ghost use Rattle.std.specs.Result.{result_err};
ghost use Rattle.planes.specs.Copies.{copy_fault, Ready, Copied, Copies};

use crate::grid::{Grid, is_covered};
use crate::plane::Plane;
use crate::rectangle::Rectangle;
use faults::fault::{Fault, Layer};

// Declines a rectangle that is empty or leaves the plane, and then an output that is too short.
fn check_copy(rows: usize, columns: usize, rectangle: Rectangle, room: usize) -> Result<(), Fault>
    ensures declines_by_the_first_that_holds { result_err result ≡ copy_fault rows columns rectangle room }
{
    if rectangle.leaves(rows, columns) {
        return Err(Fault::Rectangle(Layer::Plane));
    }
    if !is_covered(rectangle.height, rectangle.width, room) {
        return Err(Fault::OutputShort(Layer::Plane));
    }
    Ok(())
}

// The fault that copying a rectangle of a plane of some rows and columns into an output of some length would meet. A question: its answer
// is the fault, and it cannot fail.
pub fn copy_fault(rows: usize, columns: usize, rectangle: Rectangle, room: usize) -> Option<Fault>
    ensures is_the_first_that_holds { result ≡ copy_fault rows columns rectangle room }
{
    check_copy(rows, columns, rectangle, room).err()
}

// Copies the number at one place of a rectangle.
fn copy_place<P: Plane>(
    plane: &P,
    rectangle: Rectangle,
    row: usize,
    column: usize,
    output: &mut Grid<'_, i32>,
)
    requires ready { Ready (P.Plane.picture plane.now) rectangle output.old.rows output.old.columns (length output.old.cells.now) }
    requires a_row { row < rectangle.height }
    requires a_column { column < rectangle.width }
    ensures keeps_the_rows { output.new.rows ≡ output.old.rows }
    ensures keeps_the_columns { output.new.columns ≡ output.old.columns }
    ensures keeps_the_buffer { output.new.cells.ghost_name ≡ output.old.cells.ghost_name }
    ensures copies_the_number { Copied (P.Plane.picture plane.now).number rectangle (row * rectangle.width + column) (row * rectangle.width + (column + 1)) output.old.cells.now output.new.cells.now }
{
    let number = plane
        .read(rectangle.first_row + row, rectangle.first_column + column)
        .unwrap();
    let _ = output.set(row, column, number);
}

// Copies one row of a rectangle.
fn copy_row<P: Plane>(plane: &P, rectangle: Rectangle, row: usize, output: &mut Grid<'_, i32>)
    requires ready { Ready (P.Plane.picture plane.now) rectangle output.old.rows output.old.columns (length output.old.cells.now) }
    requires a_row { row < rectangle.height }
    ensures keeps_the_rows { output.new.rows ≡ output.old.rows }
    ensures keeps_the_columns { output.new.columns ≡ output.old.columns }
    ensures keeps_the_buffer { output.new.cells.ghost_name ≡ output.old.cells.ghost_name }
    ensures copies_the_row { Copied (P.Plane.picture plane.now).number rectangle (row * rectangle.width) (row * rectangle.width + rectangle.width) output.old.cells.now output.new.cells.now }
{
    for column in 0..rectangle.width {
        copy_place(plane, rectangle, row, column, output);
    }
}

// Writes a rectangle of a plane into the front of an output, row by row; declined, it changes nothing.
pub fn copy_out<P: Plane>(plane: &P, rectangle: Rectangle, output: &mut [i32]) -> Result<(), Fault>
    ensures copies_the_rectangle_or_declines { Copies (P.Plane.picture plane.now) rectangle output.old output.new result }
{
    check_copy(plane.rows(), plane.columns(), rectangle, output.len())?;
    let mut grid = Grid {
        cells: output,
        rows: rectangle.height,
        columns: rectangle.width,
    };
    for row in 0..rectangle.height {
        copy_row(plane, rectangle, row, &mut grid);
    }
    Ok(())
}
