// The memory of the search: where it stands, and its agenda. The trail and the frames live in the lent work area, beside the tables (area has
// the layout).
#![tactic(auto)]

pub mod agenda;
pub mod run;
