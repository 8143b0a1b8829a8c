// Checks a tree image (docs/FORMAT.md), and reads what needs no acceptance: the header, and an item at a byte. `accepted` reads the rest.
#![tactic(auto)]

ghost use Rattle.std.specs.Prelude.{◌≡◌, ◌+◌, ◌≤◌, length};
ghost use Rattle.semantics.specs.Codes.{widths};
ghost use Rattle.image_fields.specs.Image.{expr_count, name_count, text_count, item_total, byte_total, item_here, decode};
ghost use Rattle.image.specs.Refusals.{image_refusal, verdict_of};
ghost use Rattle.image.specs.Inside.Broken.{Broken};

use codes::refusals::Refusal;
use codes::{bits, bytes, offsets, shifts};

pub mod accepted;

// Where the last 8 bytes of the header start: as two numbers of 8 bytes all its fields are read.
const HIGH_AT: usize = bytes::HEADER - 8;

// The header.
pub fn expr_count(image: &[u8]) -> usize
    requires { widths.header ≤ length image.now }
    ensures { result ≡ expr_count image.now }
{
    image_fields::in_eight(image, 0, offsets::HEADER_EXPRS, bits::NUMBER)
}

pub fn name_count(image: &[u8]) -> usize
    requires { widths.header ≤ length image.now }
    ensures { result ≡ name_count image.now }
{
    image_fields::in_eight(image, 0, offsets::HEADER_NAMES, bits::NUMBER)
}

pub fn text_count(image: &[u8]) -> usize
    requires { widths.header ≤ length image.now }
    ensures { result ≡ text_count image.now }
{
    image_fields::in_eight(image, 0, offsets::HEADER_TEXTS, bits::NUMBER)
}

pub fn item_total(image: &[u8]) -> usize
    requires { widths.header ≤ length image.now }
    ensures { result ≡ item_total image.now }
{
    image_fields::in_eight(image, 0, offsets::HEADER_ITEMS, bits::COUNT)
}

pub fn byte_total(image: &[u8]) -> usize
    requires { widths.header ≤ length image.now }
    ensures { result ≡ byte_total image.now }
{
    image_fields::field(image, 0, offsets::HEADER_BYTES, bits::COUNT)
}

pub fn entry(image: &[u8]) -> usize
    requires { widths.header ≤ length image.now }
    ensures { result ≡ (decode image.now).entry }
{
    image_fields::field(image, 0, offsets::HEADER_ENTRY, bits::NUMBER)
}

// The item at a byte.
pub fn role_at(image: &[u8], at: usize) -> usize
    requires { at + widths.item ≤ length image.now }
    ensures { result ≡ (item_here image.now at).role }
{
    image_fields::in_four(image, at, offsets::ITEM_ROLE, bits::ROLE)
}

pub fn name_at(image: &[u8], at: usize) -> usize
    requires { at + widths.item ≤ length image.now }
    ensures { result ≡ (item_here image.now at).name }
{
    image_fields::in_four(image, at, offsets::ITEM_NAME, bits::NUMBER)
}

pub fn expression_at(image: &[u8], at: usize) -> usize
    requires { at + widths.item ≤ length image.now }
    ensures { result ≡ (item_here image.now at).expression }
{
    image_fields::in_four(image, at, offsets::ITEM_EXPRESSION, bits::NUMBER)
}

// The refusal of an image that keeps 1 to 4 and that `all_fit` refuses: it is gone through again for each rule. It reads the header
// anew, so that `check` need not keep the counts for it.
fn broken(image: &[u8]) -> Result<(), Refusal>
    requires { Broken image.now }
    ensures { result ≡ verdict_of (image_refusal image.now) }
{
    let exprs = expr_count(image);
    let names = name_count(image);
    let texts = text_count(image);
    if !image_tables::exprs_fit(image, exprs, texts, item_total(image)) {
        return Err(Refusal::Expr);
    }
    let items_at = bytes::HEADER + bytes::EXPR * exprs + bytes::NAME * names + bytes::TEXT * texts;
    if !image_tables::all_stand(image, items_at, exprs, names) {
        return Err(Refusal::Item);
    }
    if !image_tables::all_smaller(image, items_at, exprs) {
        return Err(Refusal::NotSmaller);
    }
    Err(Refusal::InheritsOther)
}

// The refusal of an image, 1 to 6, 10 or 11, or that it is accepted.
pub fn check(image: &[u8]) -> Result<(), Refusal>
    ensures { result ≡ verdict_of (image_refusal image.now) }
{
    if image.len() < bytes::HEADER {
        return Err(Refusal::Length);
    }
    let low = image_fields::eight(image, 0);
    let high = image_fields::eight(image, HIGH_AT);
    let exprs = image_fields::part(low, shifts::HEADER_EXPRS, bits::NUMBER);
    let names = image_fields::part(low, shifts::HEADER_NAMES, bits::NUMBER);
    let texts = image_fields::part(low, shifts::HEADER_TEXTS, bits::NUMBER);
    let items = image_fields::part(low, shifts::HEADER_ITEMS, bits::COUNT);
    let text_bytes = image_fields::part(high, shifts::HEADER_BYTES, bits::COUNT);
    let names_at = bytes::HEADER + bytes::EXPR * exprs;
    let texts_at = names_at + bytes::NAME * names;
    let items_at = texts_at + bytes::TEXT * texts;
    if image.len() != items_at + bytes::ITEM * items + text_bytes {
        return Err(Refusal::Length);
    }
    if image_fields::part(high, shifts::HEADER_ENTRY, bits::NUMBER) >= exprs {
        return Err(Refusal::Entry);
    }
    if !image_tables::texts_fit(image, texts_at, texts, text_bytes) {
        return Err(Refusal::Text);
    }
    if !image_tables::names_fit(image, names_at, names, texts) {
        return Err(Refusal::Name);
    }
    if image_tables::all_fit(image, items_at, exprs, names, texts, items) {
        return Ok(());
    }
    // Lent anew, so that only this call has the slice in memory: the rest of `check` keeps it in registers.
    broken(&image[..])
}
