// The cone by its rule alone, without the library: every place of a line is tried.
use planes::rectangle::Rectangle;

// The members of a span on a line of n places.
fn is_member(n: i64, first: i64, last: i64, i: i64) -> bool {
    let reach = if i % 2 == 0 { 2 } else { 1 };
    0 <= i && i < n && first.wrapping_sub(reach) <= i && i <= last.wrapping_add(reach)
}

// The next span: from half the first even member to half the last.
fn next_span(n: i64, first: i64, last: i64) -> (i64, i64) {
    let mut halves = (0..n)
        .filter(|i| i % 2 == 0 && is_member(n, first, last, *i))
        .map(|i| i / 2);
    let low = halves.next().unwrap_or(-1);
    (low, halves.last().unwrap_or(low))
}

fn halved_up(n: i64) -> i64 {
    n.wrapping_add(1) / 2
}

// A side of the plate with the rectangle's span on it, at some level.
#[derive(Clone, Copy)]
struct Side {
    size: i64,
    first: i64,
    last: i64,
}

impl Side {
    // A side of the plate, and so many places of it from the first on.
    fn new(size: usize, first: usize, count: usize) -> Side {
        let first = wide(first);
        Side {
            size: wide(size),
            first,
            last: first.wrapping_add(wide(count)).wrapping_sub(1),
        }
    }

    fn up(self) -> Side {
        let (first, last) = next_span(self.size, self.first, self.last);
        Side {
            size: halved_up(self.size),
            first,
            last,
        }
    }

    fn has(self, i: i64) -> bool {
        self.first <= i && i <= self.last
    }

    fn reaches(self, i: i64) -> bool {
        is_member(self.size, self.first, self.last, i)
    }
}

// Whether the cell is in the cone, by following it up through the levels.
fn is_in_cone(rows: Side, columns: Side, levels: usize, row: i64, column: i64) -> bool {
    let mut rows = rows;
    let mut columns = columns;
    let mut i = row;
    let mut j = column;
    for _ in 0..levels {
        if i % 2 != 0 || j % 2 != 0 {
            return rows.reaches(i) && columns.reaches(j);
        }
        rows = rows.up();
        columns = columns.up();
        i = i / 2;
        j = j / 2;
    }
    rows.has(i) && columns.has(j)
}

fn wide(n: usize) -> i64 {
    i64::try_from(n).unwrap_or(0)
}

// Whether a cell of a plate is in the cone of a rectangle.
pub fn is_reached(
    height: usize,
    width: usize,
    rectangle: Rectangle,
    levels: usize,
    row: usize,
    column: usize,
) -> bool {
    let rows = Side::new(height, rectangle.first_row, rectangle.height);
    let columns = Side::new(width, rectangle.first_column, rectangle.width);
    is_in_cone(rows, columns, levels, wide(row), wide(column))
}
