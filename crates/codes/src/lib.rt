// The numbers of the tree image and of the answers (docs/FORMAT.md, docs/CALLS.md) by name, the widths of their records, and why a call turns
// back what it is given.
#![tactic(auto)]

pub mod bits;
pub mod builtins;
pub mod bytes;
pub mod details;
pub mod entries;
pub mod forms;
pub mod kinds;
pub mod name_kinds;
pub mod offsets;
pub mod refusals;
pub mod roles;
pub mod shifts;
pub mod sorts;
pub mod tags;
pub mod types;

// In a field of 14 bits: no expression, no name, no text.
pub const NONE: usize = 16383;
