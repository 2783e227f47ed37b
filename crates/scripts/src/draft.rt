// The draft from line to line.
ghost use Rattle.std.specs.Prelude.{◌≡◌};
ghost use Rattle.script_arguments.specs.Readings.{Reads};
ghost use Rattle.script_commands.specs.Lines.{command_of};
ghost use Rattle.scripts.specs.Scripts.{no_draft, added, continued, concluded};
ghost use Rattle.scripts.specs.Meanings.{ScriptRead, command_meaning, draft_meaning, trouble_at};

use crate::script::{Script, Trouble, Wrong};
use crate::state::Draft;
use plates::calls::{Call, Turn};
use script_arguments::flaw::Flaw;
use script_arguments::mistake::Mistake;
use script_commands::commands::command_of;
use script_commands::values::{Command, Ending, Opening};
use std::alloc::Global;

// The trouble of a flaw in a line.
pub(crate) fn trouble_at(line: usize, flaw: Flaw) -> Trouble
    ensures has_the_lines_number { result ≡ trouble_at line flaw }
{
    match flaw {
        Flaw::Error(mistake) => Trouble::Error(Wrong { line, mistake }),
        Flaw::Memory => Trouble::Memory,
    }
}

impl Draft {
    // No command yet.
    pub(crate) fn new(heap: Global) -> Draft
        ensures has_no_command { draft_meaning result ≡ no_draft }
    {
        Draft {
            opening: None,
            turns: Vec::new(heap),
            endings: Vec::new(heap),
        }
    }

    // The draft with its first command, if it had none.
    fn with_opening(mut self, opening: Opening) -> Result<Draft, Flaw>
        ensures has_the_opening_or_had_one { Reads draft_meaning result (added (draft_meaning self) (command_meaning (Command.Opening opening))) }
    {
        if self.opening.is_some() {
            return Err(Mistake::OpeningRepeated.into());
        }
        self.opening = Some(opening);
        Ok(self)
    }

    // The draft with one more call, if one may stand there.
    fn with_call(mut self, call: Call) -> Result<Draft, Flaw>
        ensures has_the_call_or_may_not { Reads draft_meaning result (added (draft_meaning self) (command_meaning (Command.Call call))) }
    {
        if self.opening.is_none() {
            return Err(Mistake::OpeningMissing.into());
        }
        if !self.endings.is_empty() {
            return Err(Mistake::CallAfterEnding.into());
        }
        self.turns.push(Turn::waiting(call))?;
        Ok(self)
    }

    // The draft with one more ending, if the first command has come.
    fn with_ending(mut self, ending: Ending) -> Result<Draft, Flaw>
        ensures has_the_ending_or_may_not { Reads draft_meaning result (added (draft_meaning self) (command_meaning (Command.Ending ending))) }
    {
        if self.opening.is_none() {
            return Err(Mistake::OpeningMissing.into());
        }
        self.endings.push(ending)?;
        Ok(self)
    }

    // The draft with one more line.
    pub(crate) fn with_line(self, heap: Global, line: &[u8]) -> Result<Draft, Flaw>
        ensures has_what_the_line_states { Reads draft_meaning result (continued (draft_meaning self) (command_of line.now)) }
    {
        match command_of(heap, line)? {
            None => Ok(self),
            Some(Command::Opening(opening)) => self.with_opening(opening),
            Some(Command::Call(call)) => self.with_call(call),
            Some(Command::Ending(ending)) => self.with_ending(ending),
        }
    }

    // The script, at the end of the text; `line` is the number of the line after the last.
    pub(crate) fn into_script(self, line: usize) -> Result<Script, Trouble>
        ensures is_the_script_if_it_has_a_plate { ScriptRead result (concluded (draft_meaning self).start_so_far (draft_meaning self).requests_so_far (draft_meaning self).finishes_so_far line) }
    {
        let opening = self.opening.ok_or(Trouble::Error(Wrong {
            line,
            mistake: Mistake::NoPlate,
        }))?;
        Ok(Script {
            opening,
            turns: self.turns,
            endings: self.endings,
        })
    }
}
