// What an expression says by itself or by a given resolution table (narrow.rs): its texts, its name, its literal, and the constant tables.
#![tactic(auto)]

pub mod chains;
pub mod names;
pub mod paths;
pub mod words;
