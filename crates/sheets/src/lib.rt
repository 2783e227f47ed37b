// Sheets: the changed cells of a store as lines of hexadecimal, in runs.
#![tactic(auto)]

mod count;
pub mod frame;
pub mod laws;
mod runs;
pub mod sheet;
