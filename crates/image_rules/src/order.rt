// The order of an expression's items, as a machine whose states stand for what may still come (specs/Inside/Machine.antt).
ghost use Rattle.std.specs.Prelude.{◌≡◌, ◌<◌, ◌≤◌};
ghost use Rattle.semantics.specs.Codes.{kinds};
ghost use Rattle.image_rules.specs.Inside.Machine.{state_of, started, finished, Row};

// How many bits a state takes.
pub const STATE: usize = 5;

// The first of the states that need nothing more.
const COMPLETE: usize = 13;

// The states in which kinds 0 to 11 and 12 to 16 start, from the right.
const LOW_KINDS: usize = 12;

const START_LOW: usize = 0b01011_01101_00001_01110_00010_10001_00110_00100_01101_00011_00010_01101;

const START_HIGH: usize = 0b10001_10001_00010_00010_01100;

pub fn start(kind: usize) -> usize
    requires { kind ≤ kinds.PathInterpolation }
    ensures { (state_of result ≡ started kind) × (result < 20) }
{
    if kind < LOW_KINDS {
        return image_fields::part(START_LOW, STATE * kind, STATE);
    }
    image_fields::part(START_HIGH, STATE * (kind - LOW_KINDS), STATE)
}

// The states that come next, from the right, roles 10 to 0. In state 0 nothing may come any more.
// A loop asks again only where the state changes, so that items in a row do not wait for a load.
pub fn row(state: usize) -> usize
    requires { state < 20 }
    ensures { Row state result }
{
    match state {
        0 => 0,
        1 => 0b00000_00000_00000_00000_00000_00000_00000_00000_00000_00000_01101,
        2 => 0b00000_00000_00000_00000_00000_00000_00000_00000_00000_00000_00001,
        3 => 0b00000_00000_00000_00000_00000_00000_00000_00000_00000_00000_00010,
        4 => 0b00101_00000_00000_00000_00000_00000_00000_00101_00000_00000_01101,
        5 => 0b00000_00000_00000_00000_00000_00000_00000_00101_00000_00000_01101,
        6 => 0b00000_00000_01001_00111_00110_00110_00110_00000_00000_00000_01101,
        7 => 0b00000_00000_01001_00111_00000_00000_00000_00000_00000_00000_01101,
        8 => 0b00000_00000_01001_00000_00000_00000_00000_00000_00000_00000_01101,
        9 => 0b00000_01000_00000_00000_00000_00000_00000_00000_00000_00000_00000,
        10 => 0b00000_10000_00000_00000_00000_00000_00000_00000_00000_00000_00000,
        11 => 0b00000_00000_00000_00000_00000_00000_00000_00000_00000_00000_10010,
        12 => 0b00000_00000_00000_00000_00000_00000_00000_00000_00000_00000_10011,
        13 => 0,
        14 => 0b00000_00000_01010_01111_01110_01110_01110_00000_00000_00000_00000,
        15 => 0b00000_00000_01010_01111_00000_00000_00000_00000_00000_00000_00000,
        16 => 0b00000_00000_01010_00000_00000_00000_00000_00000_00000_00000_00000,
        17 => 0b00000_00000_00000_00000_00000_00000_00000_00000_00000_00000_10001,
        18 => 0b00000_00000_00000_00000_00000_00000_00000_00000_01101_10010_00000,
        19 => 0b00000_00000_00000_00000_00000_00000_00000_00000_00000_10011_00000,
        // no state: a number that is no row, so that the compiler's table has no gaps
        _ => 31,
    }
}

pub fn complete(state: usize) -> bool
    requires { state < 20 }
    ensures { result ≡ finished (state_of state) }
{
    COMPLETE <= state
}
