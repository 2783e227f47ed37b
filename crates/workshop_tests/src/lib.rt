// What whole scripts print, over the flat store and over a tile file.
#![tactic(auto)]

#[cfg(test)]
mod scripts_in_tables;
