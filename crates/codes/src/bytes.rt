// How many bytes each record has: of the image,
pub const HEADER: usize = 12;

pub const EXPR: usize = 8;

pub const NAME: usize = 4;

pub const TEXT: usize = 4;

pub const ITEM: usize = 4;

// of the answers, a recorded narrowing being a binding and a record,
pub const ENTRY: usize = 2;

pub const EDGE: usize = 4;

pub const RECORD: usize = 4;

pub const BINDING: usize = 4;

pub const RECORDED: usize = BINDING + RECORD;

// and of the working buffer: the number of an expression's scope, and a scope, two numbers; of an event of the resolution, two
// numbers of 16 bits, the place of the second, and all.
pub const SCOPE_NUMBER: usize = 4;

pub const SCOPE: usize = SCOPE_NUMBER + SCOPE_NUMBER;

pub const EVENT_PLACE: usize = 2;

pub const EVENT: usize = EVENT_PLACE + EVENT_PLACE;
