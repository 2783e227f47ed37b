// The two directions of lifting, as types: a sweep is compiled for each.
ghost use Rattle.std.specs.Prelude.{◌≡◌, ◌+◌, ◌*◌, ◌^◌, ◌<◌, ◌≤◌};
ghost use Rattle.wavelets.specs.Lifting.{left, right};
ghost use Rattle.lifting.specs.Passes.{Direction, horizontal, vertical};
ghost use Rattle.lifting.specs.Walks.{changed_count, walked_rows, walked_columns, row_of, column_of, left_row, left_column, right_row, right_column, HasNeighbours};

use planes::places::LatticePlace;

// How a sweep goes through a plane: row by row whichever the direction, over the places of one parity along it. The parity is a number, 0 or
// 1, since it is added to places.
pub trait Axis {
    ghost direction: { Direction };

    // How many rows are walked.
    fn rows(parity: usize, height: usize) -> usize
        requires { parity ≤ 1 }
        ensures is_the_number_walked { result ≡ walked_rows direction parity height };

    // How many columns of each of these rows are walked.
    fn columns(parity: usize, width: usize) -> usize
        requires { parity ≤ 1 }
        ensures is_the_number_walked { result ≡ walked_columns direction parity width };

    // The place of a turn.
    fn place(parity: usize, row: usize, column: usize) -> LatticePlace
        requires counts_the_row { row_of direction parity row < 2 ^ 64 }
        requires counts_the_column { column_of direction parity column < 2 ^ 64 }
        ensures has_the_row { result.row ≡ row_of direction parity row }
        ensures has_the_column { result.column ≡ column_of direction parity column };

    // The neighbours of a place.
    fn left(at: LatticePlace) -> LatticePlace
        ensures has_the_row { result.row ≡ left_row direction at.row }
        ensures has_the_column { result.column ≡ left_column direction at.column };

    fn right(height: usize, width: usize, at: LatticePlace) -> LatticePlace
        requires { HasNeighbours direction height width at.row at.column }
        ensures has_the_row { result.row ≡ right_row direction height at.row }
        ensures has_the_column { result.column ≡ right_column direction width at.column };
}

// How many places of a line of n have the parity, if the line has two or more.
fn count_changed(parity: usize, n: usize) -> usize
    requires { parity ≤ 1 }
    ensures is_the_count { result ≡ changed_count parity n }
{
    if 1 < n { (n - 1 - parity) / 2 + 1 } else { 0 }
}

// The places beside place i of a line of n; a missing one is replaced by the other.
fn left_of(i: usize) -> usize
    ensures is_the_left_neighbour { result ≡ left i }
{
    if i == 0 { 1 } else { i - 1 }
}

fn right_of(n: usize, i: usize) -> usize
    requires { (i < n) × (1 < n) }
    ensures is_the_right_neighbour { result ≡ right n i }
{
    if i + 1 < n { i + 1 } else { i - 1 }
}

// Along the rows.
#[derive(Clone, Copy)]
pub struct Horizontal;

impl Axis for Horizontal {
    ghost direction = { horizontal };

    fn rows(_parity: usize, height: usize) -> usize {
        height
    }

    fn columns(parity: usize, width: usize) -> usize {
        count_changed(parity, width)
    }

    fn place(parity: usize, row: usize, column: usize) -> LatticePlace {
        LatticePlace {
            row,
            column: 2 * column + parity,
        }
    }

    fn left(at: LatticePlace) -> LatticePlace {
        LatticePlace {
            row: at.row,
            column: left_of(at.column),
        }
    }

    fn right(_height: usize, width: usize, at: LatticePlace) -> LatticePlace {
        LatticePlace {
            row: at.row,
            column: right_of(width, at.column),
        }
    }
}

// Along the columns, row against row.
#[derive(Clone, Copy)]
pub struct Vertical;

impl Axis for Vertical {
    ghost direction = { vertical };

    fn rows(parity: usize, height: usize) -> usize {
        count_changed(parity, height)
    }

    fn columns(_parity: usize, width: usize) -> usize {
        width
    }

    fn place(parity: usize, row: usize, column: usize) -> LatticePlace {
        LatticePlace {
            row: 2 * row + parity,
            column,
        }
    }

    fn left(at: LatticePlace) -> LatticePlace {
        LatticePlace {
            row: left_of(at.row),
            column: at.column,
        }
    }

    fn right(height: usize, _width: usize, at: LatticePlace) -> LatticePlace {
        LatticePlace {
            row: right_of(height, at.row),
            column: at.column,
        }
    }
}
