// The types that a record says.
pub const NULL: usize = 0;

pub const BOOL: usize = 1;

pub const INT: usize = 2;

pub const FLOAT: usize = 3;

pub const STRING: usize = 4;

pub const PATH: usize = 5;
