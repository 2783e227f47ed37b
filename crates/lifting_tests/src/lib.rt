// The transforms and the states at concrete stores and kernels, with worked cases.
#![tactic(auto)]

pub mod at_work;
#[cfg(test)]
mod worked_cases;
