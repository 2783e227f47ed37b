// A script as values, and its reading from text.
ghost use Rattle.scripts.specs.Meanings.{ScriptRead};
ghost use Rattle.scripts.specs.Scripts.{script_of};

use crate::draft::trouble_at;
use crate::state::Draft;
use plates::calls::Turn;
use script_arguments::flaw::OrMemory;
pub use script_arguments::mistake::Mistake;
pub use script_commands::values::{Ending, Opening};
use script_words::pieces::Lines;
use std::alloc::Global;

// The calls of a script wait for their answers.
#[derive(Drop)]
pub struct Script {
    pub opening: Opening,
    pub turns: Vec<Turn>,
    pub endings: Vec<Ending>,
}

// The first line that is in error, counted from 1.
#[derive(Clone, Copy, PartialEq, Eq, Debug)]
pub struct Wrong {
    pub line: usize,
    pub mistake: Mistake,
}

// Why there is no script: a line in error, or want of memory.
pub type Trouble = OrMemory<Wrong>;

// The script that a text states. Lines end at byte 10 and words at spaces; the first line in error is the one reported.
#[tactic(auto, using(std::proofs::lemmas::Grind::common_steps, crate::proofs::Drafts::texts))]
pub fn read_script(heap: Global, text: &[u8]) -> Result<Script, Trouble>
    ensures is_the_script_or_its_first_line_in_error { ScriptRead result (script_of text.now) }
{
    let mut draft = Draft::new(heap);
    let mut line = 1usize;
    for words in Lines(text) {
        draft = draft
            .with_line(heap, words)
            .map_err(|flaw| trouble_at(line, flaw))?;
        line += 1; // after the loop, the number of the line after the text
    }
    draft.into_script(line)
}
