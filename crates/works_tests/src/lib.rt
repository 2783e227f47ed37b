// Tests of laying, settling and previewing on the flat store, with both kernels.
#![tactic(auto)]

#[cfg(test)]
mod one_row;
