// Sheets of stores and of plates, as tables.
#![tactic(auto)]

#[cfg(test)]
mod plate;
#[cfg(test)]
mod runs;
