// The walk over an image, record by record, as image/specs/paper/Decode has it: the first fault met, with its place, or that there is none.
#![tactic(auto)]

pub mod records;
pub mod whole;
