// How many bits of its record stand behind a field.
use crate::bits;

// Header, of its first 8 bytes and of its last:
pub const HEADER_ITEMS: usize = 2;

pub const HEADER_TEXTS: usize = HEADER_ITEMS + bits::COUNT;

pub const HEADER_NAMES: usize = HEADER_TEXTS + bits::NUMBER;

pub const HEADER_EXPRS: usize = HEADER_NAMES + bits::NUMBER;

pub const HEADER_ENTRY: usize = 0;

pub const HEADER_BYTES: usize = HEADER_ENTRY + bits::NUMBER;

// Expression, its run being first item and item count; name, text, item:
pub const EXPR_COUNT: usize = 0;

pub const EXPR_FIRST: usize = EXPR_COUNT + bits::COUNT;

pub const EXPR_TEXT: usize = EXPR_FIRST + bits::COUNT;

pub const EXPR_FORM: usize = EXPR_TEXT + bits::NUMBER;

pub const NAME_SPARE: usize = 0;

pub const NAME_KIND: usize = NAME_SPARE + bits::NAME_SPARE;

pub const NAME_TEXT: usize = NAME_KIND + bits::NAME_KIND;

pub const TEXT_LENGTH: usize = 0;

pub const TEXT_FIRST: usize = TEXT_LENGTH + bits::LENGTH;

pub const ITEM_EXPRESSION: usize = 0;

pub const ITEM_NAME: usize = ITEM_EXPRESSION + bits::NUMBER;

pub const ITEM_ROLE: usize = ITEM_NAME + bits::NUMBER;

// Entry of a table, record, edge, binding:
pub const ENTRY_VALUE: usize = 0;

pub const ENTRY_TAG: usize = ENTRY_VALUE + bits::NUMBER;

pub const RECORD_SORT: usize = bits::NUMBER;

pub const RECORD_NAME: usize = RECORD_SORT + bits::SORT;

pub const EDGE_TO: usize = bits::EDGE_SPARE;

pub const BINDING: usize = bits::BINDING_SPARE;
