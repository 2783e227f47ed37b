// The cone of a rectangle: the test of a cell, and how many cells pass it.
ghost use Rattle.std.specs.Prelude.{◌≡◌, true, false, MatchOption};
ghost use Rattle.std.specs.List.{count_by, range_with_len};
ghost use Rattle.planes.specs.Rectangles.{leaves};
ghost use Rattle.wavelets.specs.Counts.{count_cells};
ghost use Rattle.wavelets.specs.Cone.{in_cone};
ghost use Rattle.cones.specs.Rectangles.{rows_of, columns_of};
ghost use Rattle.cones.specs.Cones.{cone_cells, in_cone_at_depth};

use crate::depth::depth_of;
use crate::side_spans::SideSpans;
use planes::level::Level;
use planes::rectangle::Rectangle;
use wavelets::Span;

// The rows and the columns of a rectangle with their spans, and the number of levels.
#[derive(Clone, Copy, Drop)]
pub struct Cone {
    pub rows: SideSpans,
    pub columns: SideSpans,
    pub levels: Level,
}

impl Cone {
    // The cone of some rows and columns on a plate of two sides.
    pub fn new(height: usize, width: usize, rows: Span, columns: Span, levels: Level) -> Cone
        ensures has_the_plates_height { result.rows.side ≡ height }
        ensures has_the_plates_width { result.columns.side ≡ width }
        ensures has_the_cells_of_their_cone { cone_cells result ≡ in_cone height width rows columns levels.number }
    {
        Cone {
            rows: SideSpans::new(height, rows),
            columns: SideSpans::new(width, columns),
            levels,
        }
    }

    // The cone of a rectangle; none where the rectangle is empty or leaves the plate.
    pub fn of_rectangle(
        height: usize,
        width: usize,
        rectangle: Rectangle,
        levels: Level,
    ) -> Option<Cone>
        ensures has_the_cells_of_the_rectangles_cone { MatchOption result
            (leaves height width rectangle ≡ true)
            (λ cone. (leaves height width rectangle ≡ false)
            × (cone.rows.side ≡ height)
            × (cone.columns.side ≡ width)
            × (cone_cells cone ≡ in_cone height width (rows_of rectangle) (columns_of rectangle) levels.number)) }
    {
        if rectangle.leaves(height, width) {
            return None;
        }
        let rows = Span {
            first: rectangle.first_row,
            last: rectangle.first_row + rectangle.height - 1,
        };
        let columns = Span {
            first: rectangle.first_column,
            last: rectangle.first_column + rectangle.width - 1,
        };
        Some(Cone::new(height, width, rows, columns, levels))
    }

    // What the rule asks of a cell of some depth.
    fn contains_at(&self, depth: Level, row: usize, column: usize) -> bool
        ensures is_the_rule_at_the_depth { result ≡ in_cone_at_depth self.now depth.number row column }
    {
        let i = row >> depth.number;
        let j = column >> depth.number;
        if depth.number == self.levels.number {
            self.rows.is_within(depth, i) && self.columns.is_within(depth, j)
        } else {
            self.rows.is_member(depth, i) && self.columns.is_member(depth, j)
        }
    }

    // Whether a cell is in the cone.
    pub fn contains(&self, row: usize, column: usize) -> bool
        ensures is_in_the_cone { result ≡ cone_cells self.now row column }
    {
        self.contains_at(depth_of(self.levels, row, column), row, column)
    }

    // How many cells of a row are in the cone.
    fn count_row(&self, row: usize) -> usize
        ensures counts_the_row { result ≡ count_by (cone_cells self.now row) (range_with_len 0 self.now.columns.side) }
    {
        (0..self.columns.side)
            .filter(|column| self.contains(row, *column))
            .count()
    }

    // How many cells are in the cone; every such number has a place in 128 bits.
    pub fn count(&self) -> u128
        ensures counts_the_cells { result ≡ count_cells self.now.rows.side self.now.columns.side (cone_cells self.now) }
    {
        let mut count: u128 = 0;
        for row in 0..self.rows.side {
            count += self.count_row(row) as u128;
        }
        count
    }
}
