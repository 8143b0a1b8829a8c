// What the events of the backward pass say, settled: each Reference refers to the innermost definition of its text, else to the
// builtin of that text, else to the innermost With.
#![tactic(auto)]

ghost use Rattle.std.specs.Prelude.{◌≡◌, ◌+◌, ◌*◌, ◌≤◌, ◌<◌, ◌^◌, length, get_or, set};
ghost use Rattle.semantics.specs.Codes.{widths};
ghost use Rattle.image_fields.specs.Image.{text_count, decode};
ghost use Rattle.lent.specs.Inside.Stores.{store16};
ghost use Rattle.resolve_laws.specs.Inside.Logged.{Traced};
ghost use Rattle.text_classes.specs.Inside.Chains.{Clear, Roomy, Known};
ghost use Rattle.resolve_settle.specs.Inside.Chains.{Chained, Unchained};
ghost use Rattle.resolve_settle.specs.Inside.Settling.{class_in, Built, Played, Ends, Lent, Begins, Resolves};
ghost use Rattle.resolve_settle.specs.Inside.Entries.{unmarked, Unmarked};

use codes::{NONE, bytes, entries, kinds};
use image::accepted::Image;

// The mark of no With.
const NO_WITH: usize = entries::WITH + NONE;

// Up to how many texts an image has few, and some; and how many there can be. A room for them has twice as many slots for chains.
const FEW_TEXTS: usize = 64;

const FEW_SLOTS: usize = 2 * FEW_TEXTS;

const SOME_TEXTS: usize = 1024;

const SOME_SLOTS: usize = 2 * SOME_TEXTS;

const MANY_TEXTS: usize = 16384;

const MANY_SLOTS: usize = 2 * MANY_TEXTS;

// How many times as many the next has.
const MORE: usize = 16;

// An entry for each Reference of a chain from place `start` on, the latest first; and the head of what is left of the chain. The
// second number of a Reference's event is the link to the one that waits before it.
fn settle_chain(table: &mut [u8], working: &[u8], head: usize, start: usize, entry: usize) -> usize
    requires { Chained working.now head }
    ensures { Unchained working.now head start entry table.old table.new result }
{
    let mut h = head;
    while h > start {
        let at = bytes::EVENT * (h - 1);
        lent::put16(table, bytes::ENTRY * image_fields::two(working, at), entry);
        h = image_fields::two(working, at + bytes::EVENT_PLACE);
    }
    h
}

// The Reference at place p waits in front of those of its class.
fn refer(working: &mut [u8], heads: &mut [u16], p: usize, class: usize)
    requires class_in_bounds { class < length heads.old }
    requires p_bound { p < 2 ^ 14 }
    ensures { let head = get_or heads.old class 0 in
        (working.new ≡ store16 working.old (2 * widths.entry * p + widths.entry) head)
        × (heads.new ≡ set heads.old class (p + 1)) }
{
    lent::put16(
        working,
        bytes::EVENT * p + bytes::EVENT_PLACE,
        usize::from(heads[class]),
    );
    heads[class] = (p + 1) as u16;
}

// The end at place p of what lies inside an expression: the names that it defines, from the last to the first, each given to
// what waits for its text inside.
fn give_names(
    image: Image<'_>,
    table: &mut [u8],
    working: &[u8],
    class: &mut [u16],
    buckets: &[u16],
    next: &[u16],
    heads: &mut [u16],
    p: usize,
)
    requires known { Known image.bytes.now class.old buckets.now next.now }
    requires ends { Ends image.bytes.now p heads.old working.now table.old }
    ensures { Played image.entry.bytes.now (p + 1) class.new buckets.now next.now heads.new working.now table.old table.new }
{
    let e = image_fields::two(working, bytes::EVENT * p);
    let start = image_fields::two(working, bytes::EVENT * p + bytes::EVENT_PLACE);
    let items = image.item_place(e, 0);
    for k in (0..image.item_count(e)).rev() {
        let at = items + bytes::ITEM * k;
        if !resolve_defs::defines_item(image, at) {
            continue;
        }
        let name = image.name_at(at);
        let c = text_classes::class_of(image, class, buckets, next, image.name_text(name));
        let head = usize::from(heads[c]);
        let rest = settle_chain(table, working, head, start, entries::DEFINITION + name);
        heads[c] = rest as u16;
    }
}

// All events, one after the other.
fn settle_events(
    image: Image<'_>,
    table: &mut [u8],
    working: &mut [u8],
    class: &mut [u16],
    buckets: &[u16],
    next: &[u16],
    heads: &mut [u16],
    events: usize,
)
    requires known { Known image.bytes.now class.old buckets.now next.now }
    requires traced { Traced (decode image.bytes.now) table.old working.old events }
    requires begins { Begins image.bytes.now heads.old working.old table.old }
    ensures { Played image.entry.bytes.now events class.new buckets.now next.now heads.new working.new table.old table.new }
{
    for p in 0..events {
        let e = image_fields::two(working, bytes::EVENT * p);
        if image.kind(e) != kinds::REFERENCE {
            give_names(image, table, working, class, buckets, next, heads, p);
            continue;
        }
        let x = image.expr_text(e);
        let c = text_classes::class_of(image, class, buckets, next, x);
        refer(working, heads, p, c);
    }
}

// What still waits: the builtin of each text, looked up once.
fn settle_builtins(image: Image<'_>, table: &mut [u8], working: &[u8], heads: &[u16])
    requires { let t = decode image.bytes.now in
        Built t (class_in t) 0 heads.now working.now table.old table.old }
    ensures { let t = decode image.entry.bytes.now in
        Built t (class_in t) (text_count image.entry.bytes.now) heads.now working.now table.old table.new }
{
    for x in 0..image.text_count() {
        let head = usize::from(heads[x]);
        if head == 0 {
            continue;
        }
        if let Some(place) = resolve_builtins::lookup_global_builtin(image.text(x)) {
            settle_chain(table, working, head, 0, entries::BUILTIN + place);
        }
    }
}

// A mark or an entry as it stands in the answer.
fn unmark(entry: usize) -> usize
    ensures { result ≡ unmarked entry }
{
    if entry == NO_WITH {
        return 0;
    }
    entry
}

// The marks that are left taken out.
fn unmark_all(table: &mut [u8], exprs: usize)
    requires { (exprs < 2 ^ 14) × (widths.entry * exprs ≤ length table.old) }
    ensures { Unmarked exprs table.old table.new }
{
    for e in 0..exprs {
        let at = bytes::ENTRY * e;
        let entry = unmark(image_fields::two(table, at));
        lent::put16(table, at, entry);
    }
}

// The table, with room for the classes of all texts.
fn settle_with(
    image: Image<'_>,
    table: &mut [u8],
    working: &mut [u8],
    events: usize,
    class: &mut [u16],
    buckets: &mut [u16],
    next: &mut [u16],
    heads: &mut [u16],
)
    requires traced { Traced (decode image.bytes.now) table.old working.old events }
    requires begins { Begins image.bytes.now heads.old working.old table.old }
    requires roomy { Roomy image.bytes.now class.old buckets.old next.old }
    requires clear { Clear class.old × Clear buckets.old }
    ensures { Resolves image.entry.bytes.now table.old table.new }
{
    text_classes::enter_names(image, class, buckets, next);
    settle_events(image, table, working, class, buckets, next, heads, events);
    settle_builtins(image, table, working, heads);
    unmark_all(table, image.expr_count());
}

// The table of an image with at most ROOM texts: the arrays of each size are in a frame of its own, so that the stack has the
// room that is used and no other.
#[inline(never)]
fn settle_within<const ROOM: usize, const SLOTS: usize>(
    image: Image<'_>,
    table: &mut [u8],
    working: &mut [u8],
    events: usize,
)
    requires traced { Traced (decode image.bytes.now) table.old working.old events }
    requires lent { Lent image.bytes.now working.old table.old }
    requires texts_fit { text_count image.bytes.now ≤ ROOM }
    requires slots_fit { ROOM ≤ SLOTS }
    requires some_slot { 0 < SLOTS }
    requires few_slots { SLOTS ≤ 2 ^ 16 }
    ensures { Resolves image.entry.bytes.now table.old table.new }
{
    let mut class = [0u16; ROOM];
    let mut buckets = [0u16; SLOTS];
    let mut next = [0u16; ROOM];
    let mut heads = [0u16; ROOM];
    settle_with(
        image,
        table,
        working,
        events,
        &mut class,
        &mut buckets,
        &mut next,
        &mut heads,
    );
}

// The table, in this room if it is enough for all texts, else in more. That it calls itself keeps the large rooms out of the
// frames above: the compiler makes them no part of a function that does.
fn settle_in(image: Image<'_>, table: &mut [u8], working: &mut [u8], events: usize, room: usize)
    requires traced { Traced (decode image.bytes.now) table.old working.old events }
    requires lent { Lent image.bytes.now working.old table.old }
    requires room_nonzero { 0 < room }
    ensures { Resolves image.entry.bytes.now table.old table.new }
{
    if image.text_count() > room {
        settle_in(image, table, working, events, MORE * room);
        return;
    }
    if room <= FEW_TEXTS {
        settle_within::<FEW_TEXTS, FEW_SLOTS>(image, table, working, events);
        return;
    }
    if room <= SOME_TEXTS {
        settle_within::<SOME_TEXTS, SOME_SLOTS>(image, table, working, events);
        return;
    }
    settle_within::<MANY_TEXTS, MANY_SLOTS>(image, table, working, events);
}

// The table, from the marks in it and the events.
pub fn settle(image: Image<'_>, table: &mut [u8], working: &mut [u8], events: usize)
    requires traced { Traced (decode image.bytes.now) table.old working.old events }
    requires lent { Lent image.bytes.now working.old table.old }
    ensures { Resolves image.entry.bytes.now table.old table.new }
{
    settle_in(image, table, working, events, FEW_TEXTS);
}
