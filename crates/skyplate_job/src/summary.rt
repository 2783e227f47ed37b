// A picture in one line for people.
ghost use Rattle.std.specs.Prelude.{◌≡◌, Some};
ghost use Rattle.skyplate_job.specs.Reports.{summary_of, summary_line};

use pgm::read::Picture;
use std::fmt;

#[derive(Clone, Copy)]
pub struct Summary {
    pub picture: Picture,
    pub smallest: u16,
    pub largest: u16,
}

impl Summary {
    pub fn new(picture: Picture, samples: &[u16]) -> Summary
        ensures has_the_smallest_and_the_largest_sample { result ≡ summary_of picture samples.now }
    {
        let mut smallest = u16::MAX;
        let mut largest = 0u16;
        for sample in samples {
            smallest = smallest.min(*sample);
            largest = largest.max(*sample);
        }
        Summary {
            picture,
            smallest,
            largest,
        }
    }
}

impl fmt::Display for Summary {
    ghost output = { λ s. Some (summary_line s) };

    fn fmt<W: fmt::Write>(&self, f: &mut fmt::Formatter<W>) -> fmt::Result {
        let Picture { columns, rows, top } = self.picture;
        let smallest = self.smallest;
        let largest = self.largest;
        writeln!(
            f,
            "{rows} rows, {columns} columns, top {top}, samples from {smallest} to {largest}"
        )
    }
}
