// The states of a plane at work: it holds samples or cells, and its type says which.
#![tactic(auto)]

pub mod lent;
pub mod sources;
pub mod states;
