// The details of expressions, by their kind. A Literal:
pub const FLOAT: usize = 0;

pub const INTEGER: usize = 1;

pub const STRING: usize = 2;

pub const PATH: usize = 3;

// A BinOp:
pub const NOT_EQUAL: usize = 8;

pub const EQUAL: usize = 9;

pub const AND: usize = 10;

pub const IMPLICATION: usize = 11;

pub const OR: usize = 12;

// An AttrSet, and a UnaryOp:
pub const REC: usize = 1;

pub const INVERT: usize = 0;
