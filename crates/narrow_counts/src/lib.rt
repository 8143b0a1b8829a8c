// How many nodes each expression has as a condition, from small numbers to large: the steps of an analysis without an analysis.
#![tactic(auto)]

ghost use Rattle.std.specs.Prelude.{◌≡◌, ◌≤◌, ◌<◌, ◌^◌, length};
ghost use Rattle.semantics.specs.Narrow.{nodes};
ghost use Rattle.image_fields.specs.Image.{expr_count, decode};
ghost use Rattle.narrow_counts.specs.Inside.Nodes.{Filled, Counted, Affords};

use image::accepted::Image;
use narrow_run::Connective;
use resolve_counts::{FEW, MANY, MORE, SOME, STOP};

// A run of no more steps an expression is made without a count before it: the image bounds it.
pub const STEPS_AN_EXPR: usize = 16;

// The nodes of c, from the counts of its parts.
#[inline(always)]
fn nodes_of(image: Image<'_>, room: &[u32], c: usize) -> usize
    requires c_bound { (c < expr_count image.bytes.now) × (c ≤ length room.now) }
    requires filled { Filled (decode image.bytes.now) c room.now }
    ensures { Counted (decode image.entry.bytes.now) c result }
{
    match narrow_run::connective_of(image, c) {
        Connective::Leaf => 1,
        Connective::Not => 1 + room[image.item_expression(c, 0)] as usize,
        Connective::And | Connective::Or | Connective::Implication => {
            let left = room[image.item_expression(c, 0)] as usize;
            1 + left + room[image.item_expression(c, 1)] as usize
        }
    }
}

// The nodes of each expression below n.
pub fn fill_nodes(image: Image<'_>, room: &mut [u32], n: usize)
    requires { (n ≤ expr_count image.bytes.now) × (n ≤ length room.old) }
    ensures { Filled (decode image.entry.bytes.now) n room.new }
{
    for e in 0..n {
        let nodes = nodes_of(image, room, e);
        room[e] = nodes.min(STOP) as u32;
    }
}

// The nodes of c in this room.
fn count_nodes(image: Image<'_>, room: &mut [u32], c: usize) -> usize
    requires { (c < expr_count image.bytes.now) × (c ≤ length room.old) }
    ensures { Counted (decode image.entry.bytes.now) c result }
{
    fill_nodes(image, room, c);
    nodes_of(image, room, c)
}

// The same with room of its own, for the expressions below c.
// Each room has a frame of its own, so that the stack has the room that is used and no other.
#[inline(never)]
fn count_within<const ROOM: usize>(image: Image<'_>, c: usize) -> usize
    requires c_bound { (c < expr_count image.bytes.now) × (c ≤ ROOM) }
    requires room_bound { ROOM ≤ 16384 }
    ensures { Counted (decode image.entry.bytes.now) c result }
{
    let mut room = [0u32; ROOM];
    count_nodes(image, &mut room, c)
}

// The nodes in this room if it is enough for all below c, else in more; it calls itself as `resolve_counts::count_in` does.
fn count_in(image: Image<'_>, c: usize, room: usize) -> usize
    requires c_bound { c < expr_count image.bytes.now }
    requires room_nonzero { 0 < room }
    ensures { Counted (decode image.entry.bytes.now) c result }
{
    if c > room {
        return count_in(image, c, MORE * room);
    }
    if room <= FEW {
        return count_within::<FEW>(image, c);
    }
    if room <= SOME {
        return count_within::<SOME>(image, c);
    }
    count_within::<MANY>(image, c)
}

// Whether the analysis of c is within a budget, asked of a large budget alone.
pub fn affordable(image: Image<'_>, c: usize, budget: usize) -> bool
    requires { (c < expr_count image.bytes.now) × (budget < 2 ^ 32) }
    ensures { let s = image.entry.bytes.now in Affords (expr_count s) (nodes (decode s) c) budget result }
{
    if budget <= STEPS_AN_EXPR * image.expr_count() {
        return true;
    }
    count_in(image, c, FEW) <= budget
}
