// Kind and detail of an expression as one number, its form: what one kind counts in it, and the forms that have a text.
use crate::{bits, details, kinds};

pub const ONE_KIND: usize = 1 << bits::DETAIL;

pub const REFERENCE: usize = kinds::REFERENCE * ONE_KIND;

pub const STRING: usize = kinds::LITERAL * ONE_KIND + details::STRING;
