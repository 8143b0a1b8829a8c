// The roles of items.
pub const CHILD: usize = 0;

pub const PATH_KEY: usize = 1;

pub const DEFAULT: usize = 2;

pub const PATTERN_FIELD: usize = 3;

pub const STATIC_EXPR: usize = 4;

pub const INHERIT: usize = 5;

pub const INHERIT_FROM: usize = 6;

pub const INHERIT_BASE: usize = 7;

pub const DYNAMIC_KEY: usize = 8;

pub const DYNAMIC_VALUE: usize = 9;

pub const PARAMETER: usize = 10;

pub const LAST: usize = PARAMETER;
