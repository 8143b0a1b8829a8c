// Where the next item stands that leads to a visit of the walk, so that no visit goes again and again through thousands that lead
// to none: fields of a pattern without default, a parameter, and what a set does not visit of its inherits.
#![tactic(auto)]

ghost use Rattle.std.specs.Prelude.{◌≡◌, cond, length};
ghost use Prim.Native.Nat.{◌+◌, ◌/◌, ◌≤◌, ◌<◌, ◌^◌};
ghost use Rattle.semantics.specs.Codes.{widths};
ghost use Rattle.semantics.specs.Tree.{expr_at};
ghost use Rattle.image_fields.specs.Image.{expr_count, first_of, count_of, item_here, decode};
ghost use Rattle.walk_visit.specs.Inside.Steps.{enters_item};
ghost use Rattle.walk_places.specs.Inside.Places.{start_in, shift_in, Quiet, Idle, Placed, Put, Skipped};

use codes::{NONE, bytes, roles};
use image::accepted::Image;
use walk_visit::{Rule, items};

// The places of an image: the byte at which its items start, by how many bits an item's number is above its block's, and for each
// block the first item at or behind its start that leads to a visit. Zeros say of no item that it leads to none.
const ITEMS_AT: usize = 0;

const SHIFT: usize = 1;

const FIRST: usize = 2;

// So many blocks there are at most, and so many numbers in all.
const BLOCKS: usize = 510;

pub const PLACES: usize = FIRST + BLOCKS;

// So many items that lead to no visit, one after the other, are worth the places; each so many-th item is looked at to find them.
const GAP: usize = 64;

// The byte at which the items start.
pub fn items_at(places: &[u32; PLACES]) -> usize
    ensures { result ≡ start_in places.now }
{
    places[ITEMS_AT] as usize
}

// The block of item i.
fn block(places: &[u32; PLACES], i: usize) -> usize
    requires { shift_in places.now ≤ 20 }
    ensures { result ≡ i / 2 ^ shift_in places.now }
{
    i >> places[SHIFT]
}

// The item to look at behind item k of e, which leads to no visit: none between the two leads to one.
pub fn behind(image: Image<'_>, places: &[u32; PLACES], e: usize, k: usize) -> usize
    requires e_bound { (e < expr_count image.bytes.now) × (k < length (expr_at (decode image.bytes.now) e).items) }
    requires placed { Placed image.bytes.now places.now }
    ensures { Skipped image.entry.bytes.now e k result }
{
    let i = image.first_item(e) + k + 1;
    let next = places[FIRST + block(places, i)] as usize;
    if next <= i {
        return k + 1;
    }
    (k + 1 + (next - i)).min(image.item_count(e))
}

// Item i if it leads to a visit, else `next`, the first behind it that does.
fn first_from(image: &[u8], rule: Rule, at: usize, i: usize, next: usize) -> usize
    requires { at + widths.item ≤ length image.now }
    ensures { result ≡ cond (enters_item rule (item_here image.now at)) i next }
{
    if items::enters(image, rule, at) {
        return i;
    }
    next
}

// The place of the block that starts at item i, if one does.
fn put(places: &mut [u32; PLACES], i: usize, next: usize)
    requires places_bound { (shift_in places.old ≤ 20) × (i / 2 ^ shift_in places.old < 510) × (i < 2 ^ 20) × (next < 2 ^ 20) }
    requires places_len { length places.old ≡ 512 }
    ensures { Put i next places.old places.new }
{
    let b = block(places, i);
    if b << places[SHIFT] != i {
        return;
    }
    places[FIRST + b] = next as u32;
}

// The places of the blocks that start at items of e, from the last item to the first. `next` is the first item behind them that
// leads to a visit, and the answer the first from the start of e's items on.
fn mark_items(image: Image<'_>, places: &mut [u32; PLACES], e: usize, next: usize) -> usize
    requires e_bound { (e < expr_count image.bytes.now) × (next < 2 ^ 20) }
    requires idle { Idle image.bytes.now (first_of image.bytes.now e + count_of image.bytes.now e) next × Placed image.bytes.now places.old }
    ensures { let s = image.entry.bytes.now in
        (result < 2 ^ 20) × Idle s (first_of s e) result × Placed s places.new }
{
    let items_at = items_at(places);
    let rule = items::rule(image, items_at, e);
    let first = image.first_item(e);
    let mut next = next;
    for i in (first..first + image.item_count(e)).rev() {
        next = first_from(image.bytes, rule, items_at + bytes::ITEM * i, i, next);
        put(places, i, next);
    }
    next
}

// The places of all blocks.
fn mark(image: Image<'_>, places: &mut [u32; PLACES])
    requires { Placed image.bytes.now places.old }
    ensures { Placed image.entry.bytes.now places.new }
{
    let mut next = image.item_total();
    for e in (0..image.expr_count()).rev() {
        next = mark_items(image, places, e, next);
    }
}

// Whether the item at byte `at` leads to no visit in some expression that may have it.
fn may_be_idle(image: &[u8], at: usize) -> bool
    requires { at + widths.item ≤ length image.now }
{
    if image::expression_at(image, at) == NONE {
        return true;
    }
    let role = image::role_at(image, at);
    if role == roles::INHERIT_FROM {
        return true;
    }
    role == roles::INHERIT_BASE
}

// Whether this is so of GAP items from the one at byte `at` on.
fn is_gap(image: &[u8], at: usize) -> bool
    requires { at + 256 ≤ length image.now }
{
    (0..GAP).all(|k| may_be_idle(image, at + bytes::ITEM * k))
}

// Whether the places are worth making: there may be a gap. One of 2 * GAP items is found; most images are told by few looks.
fn has_gap(image: Image<'_>) -> bool {
    let total = image.item_total();
    let items_at = image.items_place();
    (0..total / GAP).any(|k| is_gap(image.bytes, items_at + bytes::ITEM * GAP * k))
}

// By how many bits the number of an item is above its block's, so that there are few enough blocks.
fn shift_for(total: usize) -> usize
    requires { total < 2 ^ 20 }
    ensures { (result ≤ 20) × (total / 2 ^ result < 510) }
{
    let mut shift = 0;
    while total >> shift >= BLOCKS {
        shift += 1;
    }
    shift
}

// The places of an image in an array of zeros. They stay zero where there is no gap.
pub fn make(image: Image<'_>, places: &mut [u32; PLACES])
    requires { Quiet places.old }
    ensures { Placed image.entry.bytes.now places.new }
{
    places[ITEMS_AT] = image.items_place() as u32;
    places[SHIFT] = shift_for(image.item_total()) as u32;
    if !has_gap(image) {
        return;
    }
    mark(image, places);
}
