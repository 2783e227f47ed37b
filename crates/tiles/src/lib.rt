// Tile files: formatting and opening them, and the plane and the store that an open one is.
#![tactic(auto)]

pub mod file;
pub mod formatting;
pub mod opening;
pub mod view;
