// Tests of planes, stores and the level layer, as tables.
#![tactic(auto)]

#[cfg(test)]
mod copies;
#[cfg(test)]
mod lattices;
#[cfg(test)]
mod stores;
