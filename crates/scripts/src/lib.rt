// The workshop's script: from its text to the calls that it states.
#![tactic(auto)]

mod draft;
pub mod script;
mod show;
mod state;
