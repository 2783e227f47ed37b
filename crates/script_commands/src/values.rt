// The commands of a script as values.
use kernels::choice::KernelChoice;
use plates::calls::Call;

// The first command: a new plate over a flat store, or the plate of a file.
#[derive(Drop)]
pub enum Opening {
    Plate {
        number: u32,
        kernel: KernelChoice,
        rows: usize,
        columns: usize,
    },
    Open {
        path: Vec<u8>,
        number: u32,
        kernel: KernelChoice,
    },
}

// What is done after the last call.
#[derive(Drop)]
pub enum Ending {
    Sheet { issue: u16, room: usize },
    Save { path: Vec<u8> },
}

// A command with its arguments.
#[derive(Drop)]
pub enum Command {
    Opening(Opening),
    Call(Call),
    Ending(Ending),
}
