// The sources: another plane, samples for a rectangle, and the cells of a cone in another plane.
ghost use Rattle.std.specs.Prelude.{◌≡◌, ◌+◌, ◌*◌, true, ◌&&◌, length, nat_lt};
ghost use Rattle.cones.specs.Cones.{cone_cells};
ghost use Rattle.overlays.specs.Overlays.{inside, Offers};
ghost use Rattle.overlays.specs.Samples.{covers, sample_index, has_sample, patch, samples_at};

use crate::overlay::Source;
use cones::cone::Cone;
use planes::plane::Plane;
use planes::rectangle::Rectangle;

// The numbers of another plane.
#[derive(Drop)]
pub struct Copied<'a, P> {
    pub plane: &'a P,
}

impl<'a, P: Plane> Source for Copied<'a, P> {
    ghost test = { λ s. inside (P.Plane.picture s.plane.now).height (P.Plane.picture s.plane.now).width };

    ghost value = { λ s. (P.Plane.picture s.plane.now).number };

    fn offer(&self, row: usize, column: usize) -> Option<i32> {
        self.plane.read(row, column).ok()
    }
}

// Samples for a rectangle, row by row.
#[derive(Drop)]
pub struct Patch<'a> {
    pub rectangle: Rectangle,
    pub samples: &'a [u16],
}

// Whether a place is in a rectangle.
fn is_covered(rectangle: Rectangle, row: usize, column: usize) -> bool
    ensures is_in_the_rectangle { result ≡ covers rectangle row column }
{
    rectangle.first_row <= row
        && row - rectangle.first_row < rectangle.height
        && rectangle.first_column <= column
        && column - rectangle.first_column < rectangle.width
}

// Which of the numbers of so many columns, row by row, is that of a place; every such index has a place in 128 bits.
pub fn index_of(columns: usize, row: usize, column: usize) -> u128
    ensures is_the_index { result ≡ row * columns + column }
{
    row as u128 * columns as u128 + column as u128
}

// The sample of an index, if there is one.
pub fn sample_at(samples: &[u16], index: u128) -> Option<i32>
    ensures is_the_sample_if_there_is_one { Offers (nat_lt index (length samples.now)) (samples_at samples.now index) result }
{
    if index < samples.len() as u128 {
        Some(i32::from(samples[index as usize]))
    } else {
        None
    }
}

// Which of a rectangle's numbers, row by row, is that of a place.
fn sample_index(rectangle: Rectangle, row: usize, column: usize) -> u128
    requires inside { covers rectangle row column ≡ true }
    ensures is_the_index { result ≡ sample_index rectangle row column }
{
    let i = row - rectangle.first_row;
    let j = column - rectangle.first_column;
    index_of(rectangle.width, i, j)
}

impl<'a> Source for Patch<'a> {
    ghost test = { λ s. has_sample s.rectangle (length s.samples.now) };

    ghost value = { λ s. patch s.rectangle (samples_at s.samples.now) };

    fn offer(&self, row: usize, column: usize) -> Option<i32> {
        if !is_covered(self.rectangle, row, column) {
            return None;
        }
        sample_at(self.samples, sample_index(self.rectangle, row, column))
    }
}

// The numbers of another plane at the cells of a cone.
#[derive(Drop)]
pub struct ConeOf<'a, P> {
    pub plane: &'a P,
    pub cone: Cone,
}

impl<'a, P: Plane> Source for ConeOf<'a, P> {
    ghost test = { λ s r c. inside (P.Plane.picture s.plane.now).height (P.Plane.picture s.plane.now).width r c && cone_cells s.cone r c };

    ghost value = { λ s. (P.Plane.picture s.plane.now).number };

    fn offer(&self, row: usize, column: usize) -> Option<i32> {
        if self.cone.contains(row, column) {
            Copied { plane: self.plane }.offer(row, column)
        } else {
            None
        }
    }
}
