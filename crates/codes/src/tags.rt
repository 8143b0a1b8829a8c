// The tags of the resolution table.
pub const NONE: usize = 0;

pub const DEFINITION: usize = 1;

pub const BUILTIN: usize = 2;

pub const WITH: usize = 3;
