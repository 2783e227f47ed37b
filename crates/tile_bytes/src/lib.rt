// Cells of a tile file: where they lie, and how their numbers and change bits are read and written.
#![tactic(auto)]

pub mod bits;
pub mod bytes;
pub mod cells;
pub mod header;
pub mod sides;
pub mod slots;
