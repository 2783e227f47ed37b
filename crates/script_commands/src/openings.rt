// The commands that name a path or a kernel: plate, open and save.
ghost use Rattle.script_words.specs.Words.{words};
ghost use Rattle.script_commands.specs.Lines.{plate_of, file_of, save_of};
ghost use Rattle.script_arguments.specs.Readings.{Reads};
ghost use Rattle.script_commands.specs.Meanings.{start_meaning, finish_meaning};

use crate::values::{Ending, Opening};
use script_arguments::arguments::{first_kernel, first_number, first_word, no_more};
use script_arguments::flaw::Flaw;
use std::alloc::Global;

// plate NUMBER KERNEL ROWS COLUMNS
pub(crate) fn plate_of(line: &[u8]) -> Result<Opening, Flaw>
    ensures is_the_new_plate_or_the_mistake { Reads start_meaning result (plate_of (words line.now)) }
{
    let (number, rest) = first_number(line)?;
    let (kernel, rest) = first_kernel(rest)?;
    let (rows, rest) = first_number(rest)?;
    let (columns, rest) = first_number(rest)?;
    no_more(rest)?;
    Ok(Opening::Plate {
        number,
        kernel,
        rows: rows as usize,
        columns: columns as usize,
    })
}

// open PATH NUMBER KERNEL
pub(crate) fn file_of(heap: Global, line: &[u8]) -> Result<Opening, Flaw>
    ensures is_the_file_or_the_mistake { Reads start_meaning result (file_of (words line.now)) }
{
    let (path, rest) = first_word(line)?;
    let (number, rest) = first_number(rest)?;
    let (kernel, rest) = first_kernel(rest)?;
    no_more(rest)?;
    let path = Vec::from_slice(heap, path)?;
    Ok(Opening::Open {
        path,
        number,
        kernel,
    })
}

// save PATH
pub(crate) fn save_of(heap: Global, line: &[u8]) -> Result<Ending, Flaw>
    ensures is_the_saving_or_the_mistake { Reads finish_meaning result (save_of (words line.now)) }
{
    let (path, rest) = first_word(line)?;
    no_more(rest)?;
    let path = Vec::from_slice(heap, path)?;
    Ok(Ending::Save { path })
}
