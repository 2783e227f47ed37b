// Tests of tile files: lists of calls beside the flat store, tables of sides, slots, lengths and bytes, and a file on disk.
#![tactic(auto)]

#[cfg(test)]
mod beside_flat;
#[cfg(test)]
mod disk;
#[cfg(test)]
mod tables;
