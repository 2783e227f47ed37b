// The job of the program `skyplate`: from the bytes of a PGM file to the text that it prints.
#![tactic(auto)]

pub mod report;
pub mod summary;
