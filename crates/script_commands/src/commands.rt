// What a line states.
ghost use Rattle.std.specs.Prelude.{◌≡◌, ◌==◌, slice_index};
ghost use Rattle.std.specs.Option.{option_map, ok_or};
ghost use Rattle.script_words.specs.Words.{words};
ghost use Rattle.script_commands.specs.Lines as lines;
ghost use Rattle.script_arguments.specs.Arguments.{and_then, numbers};
ghost use Rattle.script_commands.specs.Lines.{call_of, sheet_of, command_of};
ghost use Rattle.script_arguments.specs.Readings.{Reads};
ghost use Rattle.script_commands.specs.Meanings.{meaning, finish_meaning, command_meaning};
ghost use Rattle.script_arguments.specs.declared.mistake.Mistake.TheVariants as mistake;

use crate::calls::{call_of, sheet_of};
use crate::openings::{file_of, plate_of, save_of};
use crate::values::{Command, Ending};
use plates::calls::Call;
use script_arguments::arguments::numbers_of;
use script_arguments::flaw::Flaw;
use script_arguments::mistake::Mistake;
use script_arguments::names::{CallName, Name, name_of};
use script_words::pieces::next_word;
use std::alloc::Global;

// The call of a name with the words after it.
fn called(heap: Global, name: CallName, line: &[u8]) -> Result<Call, Flaw>
    ensures is_the_call_or_the_mistake { Reads meaning result (and_then (ok_or (numbers (words line.now)) mistake.NotANumber) (call_of name)) }
{
    let numbers = numbers_of(heap, line)?;
    call_of(heap, name, &numbers)
}

// The sheet with the words after its name.
fn sheeted(heap: Global, line: &[u8]) -> Result<Ending, Flaw>
    ensures is_the_sheet_or_the_mistake { Reads finish_meaning result (and_then (ok_or (numbers (words line.now)) mistake.NotANumber) sheet_of) }
{
    let numbers = numbers_of(heap, line)?;
    sheet_of(&numbers)
}

// The command of a name with the words after it.
fn stated(heap: Global, name: Name, line: &[u8]) -> Result<Command, Flaw>
    ensures is_the_command_or_the_mistake { Reads command_meaning result (lines.stated name (words line.now)) }
{
    match name {
        Name::Plate => Ok(Command::Opening(plate_of(line)?)),
        Name::Open => Ok(Command::Opening(file_of(heap, line)?)),
        Name::Call(name) => Ok(Command::Call(called(heap, name, line)?)),
        Name::Sheet => Ok(Command::Ending(sheeted(heap, line)?)),
        Name::Save => Ok(Command::Ending(save_of(heap, line)?)),
    }
}

// Whether a line with this first word is a comment.
fn is_comment(word: &[u8]) -> bool
    ensures begins_with_the_sign { result ≡ (slice_index word.now 0 == 35) }
{
    word.first() == Some(&b'#')
}

// The command of a line, none where it states nothing.
pub fn command_of(heap: Global, line: &[u8]) -> Result<Option<Command>, Flaw>
    ensures is_the_command_or_the_mistake { Reads (option_map command_meaning) result (command_of line.now) }
{
    let Some((word, rest)) = next_word(line) else {
        return Ok(None);
    };
    if is_comment(word) {
        return Ok(None);
    }
    let name = name_of(word).ok_or(Mistake::NoSuchCommand)?;
    Ok(Some(stated(heap, name, rest)?))
}
