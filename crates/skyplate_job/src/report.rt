// The whole job as one call.
ghost use Rattle.std.specs.Prelude.{IfOk};
ghost use Rattle.skyplate_job.specs.Reports.{Reports};

use crate::summary::Summary;
use pgm::read::read_pgm;
use std::alloc::{AllocError, Global};

// How many bytes of its input the job takes, and how many samples it has room for.
const BYTES: usize = 8192;

const SAMPLES: usize = 2048;

// The text for the bytes of a file: a fault's line in hexadecimal, or a line about the picture.
pub fn report(heap: Global, bytes: &[u8]) -> Result<Vec<u8>, AllocError>
    ensures is_the_faults_line_or_the_pictures { IfOk result (λ text. Reports bytes.now text.items) }
{
    let mut samples = [0u16; SAMPLES];
    match read_pgm(bytes.get(..BYTES).unwrap_or(bytes), &mut samples) {
        Ok(picture) => {
            let summary = Summary::new(picture, picture.raster(&samples));
            Ok(summary.to_string(heap)?.into_bytes())
        }
        Err(fault) => frames::fault_line(fault).to_vec(heap),
    }
}
