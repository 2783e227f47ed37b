// The whole job as one call.
ghost use Rattle.std.specs.Prelude.{◌≡◌, ◌≤◌, length, IfOk};
ghost use Rattle.sheet_job.specs.Reports.{plan_of as laid_by, SheetOrFault, Reports};

use crate::laying::lay_and_write;
use faults::fault::Fault;
use model::plan::Plan;
use pgm::read::{Picture, read_pgm};
use planes::cell::Cell;
use planes::flat::FlatStore;
use std::alloc::{AllocError, Global};

// How many bytes of its input the job takes, and for how many samples and records it has room.
const BYTES: usize = 8192;

const SAMPLES: usize = 2048;

const LEVELS: usize = 2;

// The length of the longest sheet, of 2,048 runs of one cell each.
const LONGEST: usize = 47142;

// How a picture is laid: at two levels.
fn plan_of(picture: Picture) -> Plan
    ensures is_of_two_levels { result ≡ laid_by picture }
{
    Plan {
        rows: picture.rows as usize,
        columns: picture.columns as usize,
        top: picture.top as usize,
        levels: LEVELS,
    }
}

// Reads a file, lays its picture on a flat store, and writes the sheet of all cells into the front of an output.
fn write_picture(bytes: &[u8], out: &mut [u8]) -> Result<usize, Fault>
    requires { 47142 ≤ length out.old }
    ensures writes_the_sheet_or_tells_readings_fault { SheetOrFault bytes.now out.old out.new result }
    ensures is_no_longer_than_the_longest { IfOk result (λ n. n ≤ 47142) }
{
    let mut samples = [0u16; SAMPLES];
    let picture = read_pgm(bytes.get(..BYTES).unwrap_or(bytes), &mut samples)?;
    let plan = plan_of(picture);
    let mut records = [Cell::BLANK; SAMPLES];
    let store = FlatStore::new(&mut records, plan.rows, plan.columns);
    lay_and_write(store, plan, picture.raster(&samples), out)
}

// The text for the bytes of a file: the line of the fault that reading met, or the sheet of the picture.
pub fn report(heap: Global, bytes: &[u8]) -> Result<Vec<u8>, AllocError>
    ensures is_the_faults_line_or_the_sheet { IfOk result (λ text. Reports bytes.now text.items) }
{
    let mut out = [0u8; LONGEST];
    match write_picture(bytes, &mut out) {
        Ok(length) => out[0..length].to_vec(heap),
        Err(fault) => frames::fault_line(fault).to_vec(heap),
    }
}
