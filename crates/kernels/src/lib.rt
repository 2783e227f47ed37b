// Kernels: what a lifting step adds or takes away, as code.
#![tactic(auto)]

pub mod choice;
pub mod five_three;
pub mod kernel;
pub mod s_transform;
