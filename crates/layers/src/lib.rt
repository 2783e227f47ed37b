// Stores that stand on other stores.
#![tactic(auto)]

pub mod level;
pub mod through;
