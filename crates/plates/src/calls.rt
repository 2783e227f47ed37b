// The calls of a list, each with room for its answer.
ghost use Rattle.std.specs.Prelude.{◌≡◌, None};

use faults::fault::Fault;
use model::card::Card;
use model::plan::Plan;
use planes::cell::Cell;
use planes::places::{LatticePlace, PlatePlace};

// A call with its arguments and its buffers.
#[derive(Drop)]
pub enum Call {
    Lay {
        plan: Plan,
        samples: Vec<u16>,
    },
    Lease {
        first: PlatePlace,
        height: usize,
        width: usize,
    },
    Settle {
        plate: u32,
        serial: u32,
        samples: Vec<u16>,
        scratch: Vec<Cell>,
    },
    Surrender {
        plate: u32,
        serial: u32,
    },
    Recall,
    Preview {
        card: Card,
        first: LatticePlace,
        height: usize,
        width: usize,
        scratch: Vec<Cell>,
        output: Vec<i32>,
    },
    Read {
        card: Card,
        at: LatticePlace,
    },
    Clear,
}

// What an accepted call answered.
#[derive(Clone, Copy, PartialEq, Eq, Debug)]
pub enum Answer {
    Done,
    // The number of the plate, and the serial.
    Leased(u32, u32),
    // How many cells were put.
    Settled(usize),
    // The serial of the lease that was out.
    Recalled(Option<u32>),
    CellRead(Cell),
}

// A call and its answer; none as long as the call waits.
#[derive(Drop)]
pub struct Turn {
    pub call: Call,
    pub answer: Option<Result<Answer, Fault>>,
}

impl Turn {
    // A call that waits.
    pub fn waiting(call: Call) -> Turn
        ensures has_the_call { result.call ≡ call }
        ensures has_no_answer { result.answer ≡ None }
    {
        Turn { call, answer: None }
    }
}
