// The kinds of names (`NameKind`) that are told apart.
pub const PLAIN_ATTRSET: usize = 1;

pub const LAST: usize = 4;
