// What a line of a script states: a command with its arguments, nothing, or a mistake.
#![tactic(auto)]

mod calls;
pub mod commands;
mod openings;
pub mod values;
