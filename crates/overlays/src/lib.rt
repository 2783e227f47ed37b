// Numbers from a source, put where the source has one: copying a plane, replacing a rectangle, putting a cone, laying samples.
#![tactic(auto)]

pub mod overlay;
pub mod sources;
