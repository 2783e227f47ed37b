// Lists of calls on plates over the flat store, with both kernels.
#![tactic(auto)]

#[cfg(test)]
mod every_fault;
#[cfg(test)]
mod runs;
