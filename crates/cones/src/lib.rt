// The cone of an edit, in code: which cells of a transform may depend on a rectangle of the picture.
#![tactic(auto)]

pub mod cone;
pub mod depth;
pub mod side_spans;
pub mod span;
