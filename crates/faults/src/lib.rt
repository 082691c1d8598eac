// The fields of an image, each tested whole, as image/specs/paper/Walk and Faults have it: that it is there, then the faults of its value.
#![tactic(auto)]

pub mod fields;
pub mod totals;
pub mod values;
