// The entries of the resolution table whose value is 0: one with another value is that much more.
use crate::{shifts, tags};

pub const DEFINITION: usize = tags::DEFINITION << shifts::ENTRY_TAG;

pub const BUILTIN: usize = tags::BUILTIN << shifts::ENTRY_TAG;

pub const WITH: usize = tags::WITH << shifts::ENTRY_TAG;
