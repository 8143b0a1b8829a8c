// How many bits of its record stand before a field.
use crate::{bits, bytes};

// Header:
pub const HEADER_EXPRS: usize = 0;

pub const HEADER_NAMES: usize = HEADER_EXPRS + bits::NUMBER;

pub const HEADER_TEXTS: usize = HEADER_NAMES + bits::NUMBER;

pub const HEADER_ITEMS: usize = HEADER_TEXTS + bits::NUMBER;

pub const HEADER_BYTES: usize = HEADER_ITEMS + bits::COUNT;

pub const HEADER_ENTRY: usize = HEADER_BYTES + bits::COUNT;

// Expression, name, text, item:
pub const EXPR_KIND: usize = 0;

pub const EXPR_DETAIL: usize = EXPR_KIND + bits::KIND;

pub const EXPR_TEXT: usize = EXPR_DETAIL + bits::DETAIL;

pub const EXPR_FIRST: usize = EXPR_TEXT + bits::NUMBER;

pub const EXPR_COUNT: usize = EXPR_FIRST + bits::COUNT;

pub const NAME_TEXT: usize = 0;

pub const NAME_KIND: usize = NAME_TEXT + bits::NUMBER;

pub const TEXT_FIRST: usize = 0;

pub const TEXT_LENGTH: usize = TEXT_FIRST + bits::COUNT;

pub const ITEM_ROLE: usize = 0;

pub const ITEM_NAME: usize = ITEM_ROLE + bits::ROLE;

pub const ITEM_EXPRESSION: usize = ITEM_NAME + bits::NUMBER;

// Entry of a table, edge, recorded narrowing:
pub const ENTRY_TAG: usize = 0;

pub const ENTRY_VALUE: usize = ENTRY_TAG + bits::TAG;

pub const EDGE_FROM: usize = 0;

pub const EDGE_TO: usize = EDGE_FROM + bits::NUMBER;

pub const RECORDED_BINDING: usize = 0;

pub const RECORDED_NAME: usize = 8 * bytes::BINDING;

pub const RECORDED_SORT: usize = RECORDED_NAME + bits::NUMBER;

pub const RECORDED_VALUE: usize = RECORDED_SORT + bits::SORT;
