// Rectangles of a plane or a lattice.
ghost use Rattle.std.specs.Prelude.{◌≡◌};
ghost use Rattle.planes.specs.Rectangles.{leaves};

// The first row and column, and how many of each.
#[derive(Clone, Copy, PartialEq, Eq, Debug)]
pub struct Rectangle {
    pub first_row: usize,
    pub first_column: usize,
    pub height: usize,
    pub width: usize,
}

impl Rectangle {
    // Whether the rectangle is empty or leaves a plane of some rows and columns, over whole numbers.
    pub fn leaves(self, rows: usize, columns: usize) -> bool
        ensures is_empty_or_ends_beyond { result ≡ leaves rows columns self }
    {
        self.height == 0
            || self.width == 0
            || self.first_row as u128 + self.height as u128 > rows as u128
            || self.first_column as u128 + self.width as u128 > columns as u128
    }
}
