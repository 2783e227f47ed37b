// What stands after the name of a command: words, kernels, numbers and samples; and the mistakes of a line.
#![tactic(auto)]

pub mod arguments;
pub mod flaw;
pub mod mistake;
pub mod names;
pub mod show;
