// The rule book's image, as lent: its limits, its fields, and where an accepted image has its parts. What an image says stands in
// specs/paper.
#![tactic(auto)]

pub mod fields;
pub mod front;
pub mod limits;
pub mod refusals;
pub mod write;
