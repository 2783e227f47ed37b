// The row-by-row rectangle at the front of a caller's buffer, for every element.
ghost use Rattle.std.specs.Prelude.{◌≡◌, ◌+◌, ◌*◌, ◌<◌, length, MatchOption, nat_le, slice_index_or, slice_set};
ghost use Rattle.planes.specs.Rowwise.{Inside, usable};

// `rows` times `columns` elements, row by row; no rows and no columns where the buffer is shorter.
#[derive(Drop)]
pub struct Grid<'a, T> {
    pub cells: &'a mut [T],
    pub rows: usize,
    pub columns: usize,
}

// Whether a buffer has an element for each place, over whole numbers.
pub fn is_covered(rows: usize, columns: usize, length: usize) -> bool
    ensures is_the_area_within_the_length { result ≡ nat_le (rows * columns) length }
{
    rows as u128 * columns as u128 <= length as u128
}

impl<'a, T: Copy> Grid<'a, T> {
    // A count where the buffer is long enough for the rectangle, and otherwise 0.
    fn if_covered(&self, count: usize) -> usize
        ensures is_the_count_or_none { result ≡ usable self.now.rows self.now.columns (length self.now.cells.now) count }
    {
        if is_covered(self.rows, self.columns, self.cells.len()) {
            count
        } else {
            0
        }
    }

    pub fn height(&self) -> usize
        ensures is_the_rows_or_none { result ≡ usable self.now.rows self.now.columns (length self.now.cells.now) self.now.rows }
    {
        self.if_covered(self.rows)
    }

    pub fn width(&self) -> usize
        ensures is_the_columns_or_none { result ≡ usable self.now.rows self.now.columns (length self.now.cells.now) self.now.columns }
    {
        self.if_covered(self.columns)
    }

    // How many elements the rectangle has.
    pub fn area(&self) -> usize
        ensures is_the_area_or_none { result ≡ usable self.now.rows self.now.columns (length self.now.cells.now) (self.now.rows * self.now.columns) }
    {
        if is_covered(self.rows, self.columns, self.cells.len()) {
            self.rows * self.columns
        } else {
            0
        }
    }

    // Where the element of a place lies in the buffer, if the place is inside.
    fn index(&self, row: usize, column: usize) -> Option<usize>
        ensures is_the_index_inside { MatchOption result
            (Inside self.now.rows self.now.columns (length self.now.cells.now) row column → ⊥)
            (λ k. Inside self.now.rows self.now.columns (length self.now.cells.now) row column × (k ≡ row * self.now.columns + column) × (k < length self.now.cells.now)) }
    {
        let height = self.height();
        let width = self.width();
        if row < height && column < width {
            Some(row * width + column)
        } else {
            None
        }
    }

    // The element of a place, if the place is inside.
    pub fn get(&self, row: usize, column: usize) -> Option<T>
        ensures is_the_element_inside { MatchOption result
            (Inside self.now.rows self.now.columns (length self.now.cells.now) row column → ⊥)
            (λ x. Inside self.now.rows self.now.columns (length self.now.cells.now) row column × (x ≡ slice_index_or self.now.cells.now (row * self.now.columns + column) x)) }
    {
        let at = self.index(row, column)?;
        let cells: &[T] = self.cells;
        Some(cells[at])
    }

    // Replaces the element of a place, if the place is inside.
    pub fn set(&mut self, row: usize, column: usize, element: T) -> Option<()>
        ensures keeps_the_rows { self.new.rows ≡ self.old.rows }
        ensures keeps_the_columns { self.new.columns ≡ self.old.columns }
        ensures keeps_the_buffer { self.new.cells.ghost_name ≡ self.old.cells.ghost_name }
        ensures replaces_the_element_inside { MatchOption result
            ((Inside self.old.rows self.old.columns (length self.old.cells.now) row column → ⊥)
            × (self.new.cells.now ≡ self.old.cells.now))
            (λ _. Inside self.old.rows self.old.columns (length self.old.cells.now) row column
            × (self.new.cells.now ≡ slice_set self.old.cells.now (row * self.old.columns + column) element)) }
    {
        let index = self.index(row, column)?;
        self.cells[index] = element;
        Some(())
    }
}
