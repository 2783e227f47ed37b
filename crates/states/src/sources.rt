// Sources that have a number for every place: samples row by row, and the numbers of a plane.
ghost use Rattle.overlays.specs.Samples.{samples_at, pictured};
ghost use Rattle.states.specs.States.{everywhere, padded};

use overlays::overlay::Source;
use overlays::sources::{index_of, sample_at};
use planes::plane::Plane;

// Samples, row by row; 0 where there are no more.
#[derive(Drop)]
pub struct Listed<'a> {
    pub columns: usize,
    pub samples: &'a [u16],
}

impl<'a> Source for Listed<'a> {
    ghost test = { λ s. everywhere };

    ghost value = { λ s. pictured s.columns (samples_at s.samples.now) };

    fn offer(&self, row: usize, column: usize) -> Option<i32> {
        let index = index_of(self.columns, row, column);
        Some(sample_at(self.samples, index).unwrap_or(0))
    }
}

// The numbers of a plane; 0 outside it.
#[derive(Drop)]
pub struct Padded<'a, P> {
    pub plane: &'a P,
}

impl<'a, P: Plane> Source for Padded<'a, P> {
    ghost test = { λ s. everywhere };

    ghost value = { λ s. padded (P.Plane.picture s.plane.now) };

    fn offer(&self, row: usize, column: usize) -> Option<i32> {
        Some(self.plane.read(row, column).unwrap_or(0))
    }
}
