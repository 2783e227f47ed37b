// The plain plate: what any list of calls on a plate just made comes to. specs/ has the model and its tables of refusals; the types
// here are those that the model and the plate share.
#![tactic(auto)]

pub mod card;
pub mod laws;
pub mod plan;
