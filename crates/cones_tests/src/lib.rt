// Tests of cones and overlays: tables, and cones against the rule worked out by search.
#![tactic(auto)]

#[cfg(test)]
mod cones_by_search;
#[cfg(test)]
mod cones_in_tables;
#[cfg(test)]
mod overlays_in_tables;
