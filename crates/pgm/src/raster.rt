// The raster: one or two bytes a sample, high byte first.
ghost use Rattle.std.specs.Prelude.{◌≡◌, ◌+◌, ◌*◌, ◌<◌, ◌≤◌, [], ◌∷◌, length, nat_lt};
ghost use Rattle.std.specs.Result.{result_err};
ghost use Rattle.faults.specs.Tables.{first_fault};
ghost use Rattle.pgm.specs.Reading.{sample, sample_check, Filled};
ghost use Rattle.pgm.specs.Reading.{sample_size as bytes_of};

use faults::fault::{Fault, Layer};

// How many bytes a sample has.
pub(crate) fn sample_size(top: u32) -> usize
    ensures is_the_sample_size { result ≡ bytes_of top }
    ensures is_one_or_two { result ≤ 2 }
{
    if top < 256 { 1 } else { 2 }
}

// The samples of a picture: so many, from a byte of its file on, and all of them in the file.
#[derive(Clone, Copy)]
pub(crate) struct Raster<'a> {
    pub bytes: &'a [u8],
    pub from: usize,
    pub top: u32,
    pub count: usize,
    ghost in_the_file: { from + bytes_of top * count ≤ length bytes.now },
    ghost of_a_plate: { count ≤ 16777216 },
    ghost of_two_bytes: { top < 65536 },
}

impl Raster<'_> {
    fn sample(&self, i: usize) -> u16
        requires { i < self.now.count }
        ensures is_the_sample { result ≡ sample self.now.bytes.now self.now.from self.now.top i }
    {
        if self.top < 256 {
            self.bytes[self.from + i] as u16
        } else {
            let at = self.from + 2 * i;
            u16::from_be_bytes([self.bytes[at], self.bytes[at + 1]])
        }
    }

    fn is_over(&self, i: usize) -> bool
        requires { i < self.now.count }
        ensures tells_a_sample_over_the_top { result ≡ nat_lt self.now.top (sample self.now.bytes.now self.now.from self.now.top i) }
    {
        self.top < self.sample(i) as u32
    }

    // Declines the samples where one exceeds the top.
    pub(crate) fn check(&self) -> Result<(), Fault>
        ensures names_the_first_sample_over_the_top { result_err result ≡ first_fault (sample_check self.now.bytes.now self.now.from self.now.top self.now.count ∷ []) }
    {
        match (0..self.count).find(|i| self.is_over(*i)) {
            Some(index) => Err(Fault::Sample(Layer::Pgm, index)),
            None => Ok(()),
        }
    }

    // Copies the samples into the front of a buffer.
    pub(crate) fn copy(&self, samples: &mut [u16])
        requires room { self.now.count ≤ length samples.old }
        ensures fills_the_front { Filled self.now.bytes.now self.now.from self.now.top self.now.count samples.old samples.new }
    {
        let front = &mut samples[..self.count];
        for (i, place) in front.iter_mut().enumerate() {
            *place = self.sample(i);
        }
    }
}
