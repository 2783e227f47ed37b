// The commands that have numbers alone: the eight calls, and the sheet.
ghost use Rattle.std.specs.Prelude.{◌≡◌, length, IfOk, if◌then◌else◌, Ok, nat_lt};
ghost use Rattle.script_arguments.specs.declared.names.CallName.TheVariants as called;
ghost use Rattle.script_arguments.specs.declared.mistake.Mistake.TheVariants as mistake;
ghost use Rattle.script_commands.specs.Commands.{buffer_length, blank_records, zeros};
ghost use Rattle.script_arguments.specs.Arguments.{exactly};
ghost use Rattle.script_commands.specs.Lines.{call_of, sheet_of};
ghost use Rattle.script_arguments.specs.Readings.{Reads};
ghost use Rattle.script_commands.specs.Meanings.{meaning, finish_meaning};

use crate::values::Ending;
use model::card::Card;
use model::plan::Plan;
use planes::cell::Cell;
use planes::places::{LatticePlace, PlatePlace};
use plates::calls::Call;
use script_arguments::arguments::samples_of;
use script_arguments::flaw::Flaw;
use script_arguments::mistake::Mistake;
use script_arguments::names::CallName;
use std::alloc::{AllocError, Global};

// The most elements that a buffer is given: no plate needs more than 4,096 × 4,096.
const MOST: u32 = 16_777_216;

// How many elements a buffer has for which a number is written.
fn buffer_length(n: u32) -> usize
    ensures is_cut_to_what_a_plate_needs { result ≡ buffer_length n }
{
    n.min(MOST) as usize
}

// Blank records.
fn scratch_of(heap: Global, records: u32) -> Result<Vec<Cell>, AllocError>
    ensures is_blank { IfOk result (λ v. v.items ≡ blank_records records) }
{
    vec![in heap; Cell::BLANK; buffer_length(records)]
}

// Zeros.
fn output_of(heap: Global, room: u32) -> Result<Vec<i32>, AllocError>
    ensures is_all_zeros { IfOk result (λ v. v.items ≡ zeros room) }
{
    vec![in heap; 0i32; buffer_length(room)]
}

// Why there are not as many numbers as are due.
fn wrong_count(numbers: &[u32], due: usize) -> Mistake
    ensures is_missing_or_too_many { result ≡ (if nat_lt (length numbers.now) due then mistake.MissingWord else mistake.TooManyWords) }
{
    if numbers.len() < due {
        Mistake::MissingWord
    } else {
        Mistake::TooManyWords
    }
}

// lay ROWS COLUMNS TOP LEVELS SAMPLE..
fn lay_of(heap: Global, numbers: &[u32]) -> Result<Call, Flaw>
    ensures is_the_laying_or_the_mistake { Reads meaning result (call_of called.Lay numbers.now) }
{
    let [rows, columns, top, levels, samples @ ..] = numbers else {
        return Err(Mistake::MissingWord.into());
    };
    Ok(Call::Lay {
        plan: Plan {
            rows: *rows as usize,
            columns: *columns as usize,
            top: *top as usize,
            levels: *levels as usize,
        },
        samples: samples_of(heap, samples)?,
    })
}

// lease ROW COLUMN HEIGHT WIDTH
fn lease_of(numbers: &[u32]) -> Result<Call, Flaw>
    ensures is_the_leasing_or_the_mistake { Reads meaning result (call_of called.Lease numbers.now) }
{
    let [row, column, height, width] = numbers else {
        return Err(wrong_count(numbers, 4).into());
    };
    Ok(Call::Lease {
        first: PlatePlace {
            row: *row as usize,
            column: *column as usize,
        },
        height: *height as usize,
        width: *width as usize,
    })
}

// settle PLATE SERIAL RECORDS SAMPLE..
fn settle_of(heap: Global, numbers: &[u32]) -> Result<Call, Flaw>
    ensures is_the_settling_or_the_mistake { Reads meaning result (call_of called.Settle numbers.now) }
{
    let [plate, serial, records, samples @ ..] = numbers else {
        return Err(Mistake::MissingWord.into());
    };
    let samples = samples_of(heap, samples)?;
    let scratch = scratch_of(heap, *records)?;
    Ok(Call::Settle {
        plate: *plate,
        serial: *serial,
        samples,
        scratch,
    })
}

// surrender PLATE SERIAL
fn surrender_of(numbers: &[u32]) -> Result<Call, Flaw>
    ensures is_the_surrender_or_the_mistake { Reads meaning result (call_of called.Surrender numbers.now) }
{
    let [plate, serial] = numbers else {
        return Err(wrong_count(numbers, 2).into());
    };
    Ok(Call::Surrender {
        plate: *plate,
        serial: *serial,
    })
}

// preview LEVEL ROW COLUMN HEIGHT WIDTH RECORDS ROOM
fn preview_of(heap: Global, numbers: &[u32]) -> Result<Call, Flaw>
    ensures is_the_preview_or_the_mistake { Reads meaning result (call_of called.Preview numbers.now) }
{
    let [level, row, column, height, width, records, room] = numbers else {
        return Err(wrong_count(numbers, 7).into());
    };
    let scratch = scratch_of(heap, *records)?;
    let output = output_of(heap, *room)?;
    Ok(Call::Preview {
        card: Card {
            level: *level as usize,
        },
        first: LatticePlace {
            row: *row as usize,
            column: *column as usize,
        },
        height: *height as usize,
        width: *width as usize,
        scratch,
        output,
    })
}

// read LEVEL ROW COLUMN
fn read_of(numbers: &[u32]) -> Result<Call, Flaw>
    ensures is_the_reading_or_the_mistake { Reads meaning result (call_of called.Read numbers.now) }
{
    let [level, row, column] = numbers else {
        return Err(wrong_count(numbers, 3).into());
    };
    Ok(Call::Read {
        card: Card {
            level: *level as usize,
        },
        at: LatticePlace {
            row: *row as usize,
            column: *column as usize,
        },
    })
}

// recall and clear, which have no numbers.
fn alone(numbers: &[u32], call: Call) -> Result<Call, Flaw>
    ensures is_the_call_if_there_are_none { Reads meaning result (exactly 0 numbers.now (Ok (meaning call))) }
{
    match numbers {
        [] => Ok(call),
        _ => Err(Mistake::TooManyWords.into()),
    }
}

// The call of a name with its numbers.
pub(crate) fn call_of(heap: Global, name: CallName, numbers: &[u32]) -> Result<Call, Flaw>
    ensures is_the_call_or_the_mistake { Reads meaning result (call_of name numbers.now) }
{
    match name {
        CallName::Lay => lay_of(heap, numbers),
        CallName::Lease => lease_of(numbers),
        CallName::Settle => settle_of(heap, numbers),
        CallName::Surrender => surrender_of(numbers),
        CallName::Recall => alone(numbers, Call::Recall),
        CallName::Preview => preview_of(heap, numbers),
        CallName::Read => read_of(numbers),
        CallName::Clear => alone(numbers, Call::Clear),
    }
}

// sheet ISSUE ROOM
pub(crate) fn sheet_of(numbers: &[u32]) -> Result<Ending, Flaw>
    ensures is_the_sheet_or_the_mistake { Reads finish_meaning result (sheet_of numbers.now) }
{
    let [issue, room] = numbers else {
        return Err(wrong_count(numbers, 2).into());
    };
    Ok(Ending::Sheet {
        issue: u16::try_from(*issue).map_err(|_| Mistake::IssueTooLarge)?,
        room: *room as usize,
    })
}
