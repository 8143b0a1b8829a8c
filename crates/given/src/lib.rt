// The two tables that are given to a call: their entries, and their rule (7).
#![tactic(auto)]

ghost use Rattle.std.specs.Prelude.{◌≡◌, ◌+◌, ◌*◌, ◌≤◌, ◌<◌, ◌^◌, length};
ghost use Rattle.semantics.specs.Codes.{tags, widths};
ghost use Rattle.semantics.specs.Resolution.{entry_of};
ghost use Rattle.image_fields.specs.Image.{expr_count, name_count, decode};
ghost use Rattle.given.specs.Resolutions.{tag_of, value_of, resolution_in, value_fits, entry_fits, resolutions_fit};
ghost use Rattle.given.specs.Bindings.{index_in, bindings_fit};
ghost use Rattle.given.specs.Inside.Entry.{entry_stands};
ghost use Rattle.given.specs.Inside.Resolved.{tag_and_value};

use codes::{NONE, bits, builtins, bytes, entries, kinds, offsets, shifts, tags};
use image::accepted::Image;

// `ResolveResult`: a definition by its name, a builtin by its place in `GLOBAL_BUILTIN_NAMES`, the innermost With.
#[derive(Clone, Copy)]
pub enum ResolveResult {
    Definition(usize),
    Builtin(usize),
    WithExprs(usize),
}

// What the table says of an expression: the tag, and of which name, place or expression.
pub fn tag(table: &[u8], e: usize) -> usize
    requires { widths.entry * e + widths.entry ≤ length table.now }
    ensures { result ≡ tag_of table.now e }
{
    image_fields::field(table, bytes::ENTRY * e, offsets::ENTRY_TAG, bits::TAG)
}

pub fn value(table: &[u8], e: usize) -> usize
    requires { widths.entry * e + widths.entry ≤ length table.now }
    ensures { result ≡ value_of table.now e }
{
    image_fields::field(table, bytes::ENTRY * e, offsets::ENTRY_VALUE, bits::NUMBER)
}

// `name_res.get(expr)`. The value is read in each case: read before the tag is looked at, it slows the walk.
pub fn get(table: &[u8], e: usize) -> Option<ResolveResult>
    requires { widths.entry * e + widths.entry ≤ length table.now }
    ensures { entry_of (resolution_in table.now e) ≡ tag_and_value result }
{
    match tag(table, e) {
        tags::DEFINITION => Some(ResolveResult::Definition(value(table, e))),
        tags::BUILTIN => Some(ResolveResult::Builtin(value(table, e))),
        tags::WITH => Some(ResolveResult::WithExprs(value(table, e))),
        _ => None,
    }
}

// 7, of the value under a tag of something, where no name has it: those of names are told before, by one comparison.
fn value_fits(image: Image<'_>, tag: usize, value: usize, exprs: usize) -> bool
    requires { (exprs ≡ expr_count image.bytes.now) × (tags.None < tag) × (tag ≡ tags.Definition → name_count image.bytes.now ≤ value) }
    ensures { result ≡ value_fits (decode image.entry.bytes.now) tag value }
{
    if tag == tags::DEFINITION {
        return false;
    }
    if tag == tags::BUILTIN {
        return value < builtins::COUNT;
    }
    if value >= exprs {
        return false;
    }
    image.kind(value) == kinds::WITH
}

// 7, of the entry of one expression: only a Reference has one that is not zero.
fn resolution_fits(image: Image<'_>, table: &[u8], e: usize, exprs: usize, names: usize) -> bool
    requires exprs_value { (exprs ≡ expr_count image.bytes.now) × (names ≡ name_count image.bytes.now) }
    requires e_lt_exprs { (e < exprs) × (widths.entry * e + widths.entry ≤ length table.now) }
    ensures { result ≡ entry_fits (decode image.entry.bytes.now) table.now e }
{
    let entry = image_fields::two(table, bytes::ENTRY * e);
    if entry == 0 {
        return true; // so most entries ask for nothing more
    }
    if entry < entries::DEFINITION {
        return false;
    }
    if image.kind(e) != kinds::REFERENCE {
        return false;
    }
    if entry < entries::DEFINITION + names {
        return true; // a definition, as most others are
    }
    let tag = image_fields::part(entry, shifts::ENTRY_TAG, bits::TAG);
    let value = image_fields::part(entry, shifts::ENTRY_VALUE, bits::NUMBER);
    value_fits(image, tag, value, exprs)
}

// 7: a resolution table that is given to a call.
pub fn resolutions_fit(image: Image<'_>, table: &[u8]) -> bool
    ensures { result ≡ resolutions_fit image.entry.bytes.now table.now }
{
    let exprs = image.expr_count();
    if table.len() != bytes::ENTRY * exprs {
        return false;
    }
    let names = image.name_count();
    (0..exprs).all(|e| resolution_fits(image, table, e, exprs, names))
}

// The expression that a binding table gives a name.
pub fn binding_expr(table: &[u8], n: usize) -> Option<usize>
    requires { widths.entry * n + widths.entry ≤ length table.now }
    ensures { index_in table.now n ≡ result }
{
    let e = image_fields::field(table, bytes::ENTRY * n, offsets::ENTRY_VALUE, bits::NUMBER);
    if e == NONE {
        return None;
    }
    Some(e)
}

// 7, of the entry of one name. A number below the count has zero spare bits, so the two bytes are read as one.
fn binding_fits(table: &[u8], n: usize, exprs: usize) -> bool
    requires { (widths.entry * n + widths.entry ≤ length table.now) × (exprs < 2 ^ 14) }
    ensures { result ≡ entry_stands table.now n exprs }
{
    let entry = image_fields::two(table, bytes::ENTRY * n);
    if entry == NONE {
        return true;
    }
    entry < exprs
}

// 7: a binding table that is given to a call.
pub fn bindings_fit(image: Image<'_>, table: &[u8]) -> bool
    ensures { result ≡ bindings_fit image.entry.bytes.now table.now }
{
    let names = image.name_count();
    if table.len() != bytes::ENTRY * names {
        return false;
    }
    let exprs = image.expr_count();
    (0..names).all(|n| binding_fits(table, n, exprs))
}
