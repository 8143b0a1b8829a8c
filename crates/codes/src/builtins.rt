// Places in `GLOBAL_BUILTIN_NAMES` that are asked for by themselves, and how many there are.
pub const BUILTINS: usize = 2;

pub const FALSE: usize = 5;

pub const NULL: usize = 15;

pub const TRUE: usize = 21;

pub const COUNT: usize = 22;
