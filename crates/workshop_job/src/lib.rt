// The job of the program `workshop`: from a script to what it prints.
#![tactic(auto)]

pub mod buffers;
pub mod endings;
pub mod filed;
pub mod flat;
pub mod perform;
