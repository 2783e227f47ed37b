// The plate: its calls over any store and any kernel.
#![tactic(auto)]

pub mod calls;
mod checks;
mod lay;
pub mod lease;
pub mod plate;
mod preview;
pub mod run;
mod settle;
mod sheet;
pub mod state;
