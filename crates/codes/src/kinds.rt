// The kinds of expressions that are told apart, and the last of all.
pub const APPLY: usize = 1;

pub const IF_THEN_ELSE: usize = 2;

pub const LITERAL: usize = 3;

pub const LAMBDA: usize = 4;

pub const LET_IN: usize = 5;

pub const BIN_OP: usize = 7;

pub const ATTR_SET: usize = 8;

pub const UNARY_OP: usize = 9;

pub const REFERENCE: usize = 10;

pub const SELECT: usize = 11;

pub const HAS_ATTR: usize = 12;

pub const WITH: usize = 13;

pub const ASSERT: usize = 14;

pub const PATH_INTERPOLATION: usize = 16;

pub const LAST: usize = PATH_INTERPOLATION;
