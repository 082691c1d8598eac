// Sets as numbers: a lent list of them, its limit, and whether a set has a member.
#![tactic(auto)]

pub mod lists;
pub mod members;

// No list has more entries than this.
pub const LONGEST: usize = 1024;
