// Planes and stores: numbers at the places of a rectangle, with and without change bits.
#![tactic(auto)]

pub mod cell;
pub mod copy;
pub mod flat;
pub mod grid;
pub mod level;
pub mod places;
pub mod plane;
pub mod rectangle;
