// Why a call declines: twenty cases, each with a number, a layer and a place.
#![tactic(auto)]

pub mod fault;
pub mod show;
pub mod tables;
