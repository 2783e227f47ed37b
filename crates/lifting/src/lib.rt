// Lifting in place through the level layer, over any store and kernel: `passes` has the transforms, the rest is inside.
#![tactic(auto)]

mod axis;
mod levels;
mod pass;
pub mod passes;
mod step;
mod sweep;
