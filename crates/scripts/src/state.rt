// The commands of the lines so far.
ghost use Rattle.std.proofs.Props.{props};
ghost use Rattle.scripts.specs.Pending.{AllPending};

use plates::calls::Turn;
use script_commands::values::{Ending, Opening};

// The first command, once it has come, the calls, which wait for their answers, and what follows them.
#[derive(Drop)]
pub(crate) struct Draft {
    pub opening: Option<Opening>,
    pub turns: Vec<Turn>,
    pub endings: Vec<Ending>,
    ghost wait: { AllPending turns.items } by { Prim.hlevel props },
}
