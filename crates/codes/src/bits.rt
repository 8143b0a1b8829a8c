// How many bits each field has. The number of an expression, a name or a text, and a count of items or of text bytes:
pub const NUMBER: usize = 14;

pub const COUNT: usize = 20;

// Of an expression, kind and detail together being its form; of a name; of a text; of an item:
pub const KIND: usize = 5;

pub const DETAIL: usize = 5;

pub const FORM: usize = KIND + DETAIL;

pub const NAME_KIND: usize = 3;

pub const NAME_SPARE: usize = 15;

pub const LENGTH: usize = 12;

pub const ROLE: usize = 4;

// Of an entry of the resolution table, of a record, of an edge and of a binding, these two with zeros behind:
pub const TAG: usize = 2;

pub const SORT: usize = 4;

pub const EDGE_SPARE: usize = 4;

pub const BINDING_SPARE: usize = 18;
