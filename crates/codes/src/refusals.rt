// Why a call turns back what it is given: the first rule that is broken, by its number (docs/FORMAT.md, docs/CALLS.md).
ghost use Rattle.std.specs.Prelude.{◌≡◌, Some, decimal};
ghost use Rattle.codes.specs.Refusals.{number_of};

use std::error::Error;
use std::fmt;

#[derive(Clone, Copy, Debug, PartialEq, Eq, Hash)]
pub enum Refusal {
    Length = 1,
    Entry = 2,
    Text = 3,
    Name = 4,
    Expr = 5,
    Item = 6,
    Given = 7,
    OverBudget = 8,
    BufferTooShort = 9,
    NotSmaller = 10,
    InheritsOther = 11,
}

impl From<Refusal> for u32 {
    ghost from_gives = { λ refusal number. number ≡ number_of refusal };

    fn from(refusal: Refusal) -> u32 {
        refusal as u32
    }
}

impl fmt::Display for Refusal {
    ghost output = { λ refusal. Some (decimal (number_of refusal)) };

    fn fmt<W: fmt::Write>(&self, f: &mut fmt::Formatter<W>) -> fmt::Result {
        write!(f, "{}", u32::from(*self))
    }
}

impl Error for Refusal {}
