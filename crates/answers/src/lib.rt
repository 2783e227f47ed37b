// Answers and stores as lines of text.
#![tactic(auto)]

pub mod lines;
pub mod stores;
