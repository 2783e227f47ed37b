// A text taken apart: its lines, their words, and the numbers that words write.
#![tactic(auto)]

pub mod numbers;
pub mod pieces;
