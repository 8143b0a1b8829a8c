// Lent buffers: numbers stored where there is room, and zeroing. A store that finds no room changes nothing, so that a run
// can count its steps with any buffer.
#![tactic(auto)]

ghost use Rattle.std.specs.Prelude.{◌≡◌, ◌+◌, ◌*◌, ◌≤◌, ◌<◌, ◌^◌, ◌++◌, length, drop, replicate};
ghost use Rattle.semantics.specs.Codes.{none_number, widths};
ghost use Rattle.lent.specs.Calls.{zeros, afterwards};
ghost use Rattle.lent.specs.Inside.Stores.{stored, store16, store32, pairs};

use codes::{NONE, bytes};

// These bytes from `at` on, where there is room for all of them.
fn put(buffer: &mut [u8], at: usize, bytes: &[u8])
    requires { at + length bytes.now < 2 ^ 64 }
    ensures { buffer.new ≡ stored buffer.old at bytes.now }
{
    let end = at + bytes.len();
    if end <= buffer.len() {
        buffer[at..end].copy_from_slice(bytes);
    }
}

// The low 16 bits of x at `at`, the most significant byte first.
pub fn put16(buffer: &mut [u8], at: usize, x: usize)
    requires { at < 2 ^ 40 }
    ensures { buffer.new ≡ store16 buffer.old at x }
{
    let low = (x % 65536) as u16;
    put(buffer, at, &low.to_be_bytes());
}

// The low 32 bits of x at `at`, the most significant byte first.
pub fn put32(buffer: &mut [u8], at: usize, x: usize)
    requires { at < 2 ^ 63 }
    ensures { buffer.new ≡ store32 buffer.old at x }
{
    let low = (x % 4294967296) as u32;
    put(buffer, at, &low.to_be_bytes());
}

// The first n bytes to zero.
pub fn clear_first(buffer: &mut [u8], n: usize)
    requires { n ≤ length buffer.old }
    ensures { buffer.new ≡ replicate n 0 ++ drop n buffer.old }
{
    buffer[..n].fill(0);
}

// All of them.
#[tactic(auto, unfolding(crate::specs::Calls::zeros))]
pub fn clear(buffer: &mut [u8])
    ensures { buffer.new ≡ zeros buffer.old }
{
    buffer.fill(0);
}

// A number that is lent, of 32 bits or of those of a size.
pub trait Number: Copy {
    ghost ZERO: { Self };

    const ZERO: Self;
}

impl Number for u32 {
    ghost ZERO = { 0 };

    const ZERO: u32 = 0;
}

impl Number for usize {
    ghost ZERO = { 0 };

    const ZERO: usize = 0;
}

// A lent number after a call with this refusal, 0 where it has this answer.
#[tactic(auto, unfolding(crate::specs::Calls::afterwards, crate::specs::Calls::zeroes))]
pub fn put_number<N: Number>(number: &mut N, refusal: u32, answer: N)
    ensures { number.new ≡ afterwards refusal answer N.ZERO number.old }
{
    match refusal {
        0 => *number = answer,
        8 | 9 => *number = N::ZERO,
        _ => {}
    }
}

// No number in each of the first `count` entries of a table.
pub fn fill_none(table: &mut [u8], count: usize)
    requires { (count < 2 ^ 14) × (widths.entry * count ≤ length table.old) }
    ensures { table.new ≡ pairs (replicate count none_number) ++ drop (widths.entry * count) table.old }
{
    let entries = &mut table[..bytes::ENTRY * count];
    for n in 0..count {
        put16(entries, bytes::ENTRY * n, NONE);
    }
}
