// The inner work of laying, settling and previewing, over any store and kernel.
#![tactic(auto)]

pub mod lay;
pub mod preview;
pub mod settle;
pub mod transform;
