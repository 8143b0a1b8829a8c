// What one node of a condition tells of a name (narrow.rs).
#![tactic(auto)]

pub mod callees;
pub mod told;
