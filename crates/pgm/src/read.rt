// Reading a whole file.
ghost use Rattle.std.specs.Prelude.{◌≡◌, ◌*◌, ◌≤◌, length, take, IfOk};
ghost use Rattle.std.specs.Result.{result_err};
ghost use Rattle.faults.specs.Tables.{first_fault};
ghost use Rattle.pgm.specs.Grammar.{AtMostOneHeader};
ghost use Rattle.pgm.specs.Reading.{size_checks, Reads};

use crate::header::{Header, read_header};
use crate::raster::{Raster, sample_size};
use faults::fault::{Fault, Layer};

// The picture that a file holds, without its samples.
#[derive(Clone, Copy, PartialEq, Eq, Debug)]
pub struct Picture {
    pub columns: u32,
    pub rows: u32,
    pub top: u32,
}

impl Picture {
    // The picture's samples, where they stand in the front of a buffer.
    pub fn raster(self, samples: &[u16]) -> &[u16]
        ensures is_the_raster { result.now ≡ take (self.rows * self.columns) samples.now }
    {
        let count = self.rows as usize * self.columns as usize;
        samples.get(..count).unwrap_or(samples)
    }
}

impl Header {
    // The raster of a picture that a buffer of `room` samples has room for.
    fn raster(self, bytes: &[u8], room: usize) -> Result<Raster<'_>, Fault>
        requires { self.length ≤ length bytes.now }
        ensures names_the_first_check_that_fails { result_err result ≡ first_fault (size_checks self.picture.columns self.picture.rows self.picture.top self.length (length bytes.now) room) }
        ensures has_the_samples { IfOk result (λ raster. (raster.bytes.now ≡ bytes.now) × (raster.from ≡ self.length) × (raster.top ≡ self.picture.top)
            × (raster.count ≡ self.picture.rows * self.picture.columns) × (raster.count ≤ room)) }
    {
        let Header { picture, length } = self;
        let Picture { columns, rows, top } = picture;
        if columns < 1 || columns > 4096 || rows < 1 || rows > 4096 {
            return Err(Fault::Size(Layer::Pgm));
        }
        if top < 1 || top > 65535 {
            return Err(Fault::Top(Layer::Pgm));
        }
        let count = rows as usize * columns as usize;
        if bytes.len() - length < sample_size(top) * count {
            return Err(Fault::PgmRaster(bytes.len()));
        }
        if room < count {
            return Err(Fault::OutputShort(Layer::Pgm));
        }
        Ok(Raster {
            bytes,
            from: length,
            top,
            count,
        })
    }
}

// Reads the picture of a file, with its samples into the front of the buffer.
pub fn read_pgm(bytes: &[u8], samples: &mut [u16]) -> Result<Picture, Fault>
    ensures reads_the_picture_or_declines_by_the_table { Reads bytes.now samples.old result samples.new }
{
    let header = read_header(bytes).map_err(Fault::PgmHeader)?;
    let raster = header.raster(bytes, samples.len())?;
    raster.check()?;
    raster.copy(samples);
    Ok(header.picture)
}

// So that what a file is read as, and why it is declined, is settled by the file and the room alone.
pub fn a_file_begins_with_at_most_one_header()
    ensures a_file_begins_with_at_most_one_header { AtMostOneHeader }
{}
