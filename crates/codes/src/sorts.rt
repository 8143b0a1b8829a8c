// The sorts of a record (`NarrowPredicate`).
pub const IS_TYPE: usize = 0;

pub const IS_NOT_TYPE: usize = 1;

pub const HAS_FIELD: usize = 2;

pub const NOT_HAS_FIELD: usize = 3;

pub const IS_ATTR_SET: usize = 4;

pub const IS_LIST: usize = 5;

pub const IS_FUNCTION: usize = 6;

pub const IS_NUMBER: usize = 7;
