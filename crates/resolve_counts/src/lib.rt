// How often each expression is visited by a resolution, from large numbers to small: its steps and its scopes without a visit.
#![tactic(auto)]

ghost use Rattle.std.specs.Prelude.{◌≡◌, length};
ghost use Prim.Native.Nat.{◌≤◌, ◌<◌, ◌^◌};
ghost use Rattle.semantics.specs.Tree.{expr_at};
ghost use Rattle.image_fields.specs.Image.{expr_count, items_place, decode};
ghost use Rattle.resolve_counts.specs.Inside.Visits.{Holds, More, Pushed, Counted};

use codes::{NONE, bytes, roles};
use image::accepted::Image;

// The largest count.
pub const STOP: usize = (1 << 32) - 1;

// Room for so many expressions.
pub const FEW: usize = 64;

pub const SOME: usize = 1024;

pub const MANY: usize = 16384;

// How many times as many the next has.
pub const MORE: usize = 16;

// The steps of a resolution, and the scopes that it makes, the root included.
#[derive(Clone, Copy)]
pub struct Counts {
    pub steps: usize,
    pub scopes: usize,
}

// v more visits of c.
pub fn add(room: &mut [u32], c: usize, v: usize)
    requires { (c < length room.old) × (c < 2 ^ 14) × (v < 2 ^ 32) }
    ensures { More c v room.old room.new }
{
    room[c] = room[c].saturating_add(v as u32);
}

// v visits of e: as many more of what its items lead to. The answer is how many leaves these are, which need no count.
fn push(image: Image<'_>, room: &mut [u32], items: usize, e: usize, v: usize) -> usize
    requires e_bound { (e < expr_count image.bytes.now) × (items ≡ items_place image.bytes.now) × (v < 2 ^ 32) }
    requires image_in_bounds { expr_count image.bytes.now ≤ length room.old }
    ensures { let s = image.entry.bytes.now in
        Pushed s (expr_at (decode s) e).items v result room.old room.new }
{
    let first = items + bytes::ITEM * image.first_item(e);
    let count = image.item_count(e);
    let mut leaves: usize = 0;
    for k in 0..count {
        let at = first + bytes::ITEM * k;
        let child = image.expression_at(at);
        if child == NONE {
            continue;
        }
        if image.role_at(at) == roles::INHERIT_FROM {
            continue;
        }
        if image.item_count(child) == 0 {
            leaves += 1;
        } else {
            add(room, child, v);
        }
    }
    leaves
}

// The counts of a resolution, or steps that exceed the budget. `room` has a number for each expression, all zero.
pub fn count_visits(image: Image<'_>, room: &mut [u32], budget: usize) -> Counts
    requires budget_bound { budget < 2 ^ 32 }
    requires holds { Holds (expr_count image.bytes.now) (λ e. 0) room.old }
    ensures { Counted (decode image.entry.bytes.now) budget result }
{
    let items = image.items_place();
    let entry = image.entry();
    room[entry] = 1;
    let mut steps: usize = 0;
    let mut scopes: usize = 1;
    for e in (0..entry + 1).rev() {
        let v = room[e] as usize;
        if v == 0 {
            continue;
        }
        steps += v;
        if steps > budget {
            return Counts { steps, scopes };
        }
        steps += v * push(image, room, items, e, v);
        if resolve_defs::makes_scope(image, e) {
            scopes += v;
        }
    }
    Counts { steps, scopes }
}

// The same with room of its own for so many expressions.
// It has a frame of its own, so that the stack has the room that is used and no other.
#[inline(never)]
fn count_within<const ROOM: usize>(image: Image<'_>, budget: usize) -> Counts
    requires budget_bound { budget < 2 ^ 32 }
    requires image_bound { expr_count image.bytes.now ≤ ROOM }
    requires room_bound { ROOM ≤ MANY }
    ensures { Counted (decode image.entry.bytes.now) budget result }
{
    let mut room = [0u32; ROOM];
    count_visits(image, &mut room, budget)
}

// The counts in this room if it is enough for all expressions, else in more. That it calls itself keeps the large rooms out
// of the frames above: the compiler makes them no part of a function that does.
fn count_in(image: Image<'_>, budget: usize, room: usize) -> Counts
    requires budget_bound { budget < 2 ^ 32 }
    requires room_nonzero { 0 < room }
    ensures { Counted (decode image.entry.bytes.now) budget result }
{
    if image.expr_count() > room {
        return count_in(image, budget, MORE * room);
    }
    if room <= FEW {
        return count_within::<FEW>(image, budget);
    }
    if room <= SOME {
        return count_within::<SOME>(image, budget);
    }
    count_within::<MANY>(image, budget)
}

// The counts without a lent buffer.
pub fn count_apart(image: Image<'_>, budget: usize) -> Counts
    requires { budget < 2 ^ 32 }
    ensures { Counted (decode image.entry.bytes.now) budget result }
{
    count_in(image, budget, FEW)
}
