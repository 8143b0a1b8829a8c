// The rules of an image whose length is right, each over the whole image (specs/Tables.antt, 3 to 6, 10 and 11).
#![tactic(auto)]

ghost use Rattle.std.specs.Prelude.{◌≡◌, true, ◌&&◌, ◌+◌, ◌≤◌, length};
ghost use Rattle.semantics.specs.Codes.{widths};
ghost use Rattle.image_fields.specs.Image.{expr_count, name_count, text_count, item_total, byte_total, texts_place, names_place, items_place};
ghost use Rattle.image_fields.specs.Inside.Asked.{Sized};
ghost use Rattle.image_tables.specs.Tables.{texts_fit, names_fit, exprs_fit, all_stand, all_smaller};
ghost use Rattle.image_tables.specs.Inside.Whole.{all_items_fit};
ghost use Rattle.image_tables.specs.Inside.Names.{name_stands};

use codes::{bits, bytes, forms, name_kinds, shifts};

// What one item counts in a run, which is the first item and the number of items, and the bits of a run.
const FIRST_ITEM: usize = 1 << shifts::EXPR_FIRST;

const RUN: usize = 1 << shifts::EXPR_TEXT;

// 3: the runs of text bytes stand end to end and use all.
pub fn texts_fit(image: &[u8], texts_at: usize, texts: usize, text_bytes: usize) -> bool
    requires sized { Sized image.now }
    requires texts_at_value { texts_at ≡ texts_place image.now }
    requires texts_value { (texts ≡ text_count image.now) × (text_bytes ≡ byte_total image.now) }
    ensures { result ≡ texts_fit image.now }
{
    let mut next: usize = 0;
    for x in 0..texts {
        let text = image_fields::four(image, texts_at + bytes::TEXT * x);
        let first = image_fields::part(text, shifts::TEXT_FIRST, bits::COUNT);
        if first != next {
            return false;
        }
        next += image_fields::part(text, shifts::TEXT_LENGTH, bits::LENGTH);
    }
    next == text_bytes
}

// 4, of the name at byte `at`.
fn name_fits(image: &[u8], at: usize, texts: usize) -> bool
    requires { at + widths.name ≤ length image.now }
    ensures { result ≡ name_stands image.now at texts }
{
    let name = image_fields::four(image, at);
    let kind = image_fields::part(name, shifts::NAME_KIND, bits::NAME_KIND);
    if kind > name_kinds::LAST {
        return false;
    }
    let text = image_fields::part(name, shifts::NAME_TEXT, bits::NUMBER);
    if text >= texts {
        return false;
    }
    image_fields::part(name, shifts::NAME_SPARE, bits::NAME_SPARE) == 0
}

// 4: the names.
pub fn names_fit(image: &[u8], names_at: usize, names: usize, texts: usize) -> bool
    requires sized { Sized image.now }
    requires names_at_value { names_at ≡ names_place image.now }
    requires names_value { (names ≡ name_count image.now) × (texts ≡ text_count image.now) }
    ensures { result ≡ names_fit image.now }
{
    (0..names).all(|n| name_fits(image, names_at + bytes::NAME * n, texts))
}

// 5: the expressions, whose runs of items stand end to end and use all. Asked only of an image that `all_fit` refuses.
pub fn exprs_fit(image: &[u8], exprs: usize, texts: usize, items: usize) -> bool
    requires sized { Sized image.now }
    requires exprs_value { exprs ≡ expr_count image.now }
    requires texts_value { (texts ≡ text_count image.now) × (items ≡ item_total image.now) }
    ensures { result ≡ exprs_fit image.now }
{
    let mut next: usize = 0;
    for e in 0..exprs {
        let expr = image_fields::eight(image, bytes::HEADER + bytes::EXPR * e);
        let form = image_fields::part(expr, shifts::EXPR_FORM, bits::FORM);
        if !image_rules::expr_fits(
            form,
            image_fields::part(expr, shifts::EXPR_TEXT, bits::NUMBER),
            texts,
        ) {
            return false;
        }
        if image_fields::part(expr, shifts::EXPR_FIRST, bits::COUNT) != next {
            return false;
        }
        next += image_fields::part(expr, shifts::EXPR_COUNT, bits::COUNT);
    }
    next == items
}

// 6, and 10, of an image that keeps 5. Asked only of one that `all_fit` refuses: where it keeps both, it breaks 11.
pub fn all_stand(image: &[u8], items_at: usize, exprs: usize, names: usize) -> bool
    requires sized { (Sized image.now) × (exprs_fit image.now ≡ true) }
    requires items_at_value { (items_at ≡ items_place image.now) × (exprs ≡ expr_count image.now) × (names ≡ name_count image.now) }
    ensures { result ≡ all_stand image.now }
{
    (0..exprs).all(|e| image_rules::parts::items_stand(image, items_at, e, names))
}

pub fn all_smaller(image: &[u8], items_at: usize, exprs: usize) -> bool
    requires sized { (Sized image.now) × (exprs_fit image.now ≡ true) }
    requires items_at_value { (items_at ≡ items_place image.now) × (exprs ≡ expr_count image.now) }
    ensures { result ≡ all_smaller image.now }
{
    (0..exprs).all(|e| image_rules::parts::items_smaller(image, items_at, e))
}

// 5, 6, 10 and 11 in one pass over the expressions. `next` is the run of no items where the last one ended. What a run has more is its
// items, and one that starts elsewhere goes back or ends past the table.
pub fn all_fit(
    image: &[u8],
    items_at: usize,
    exprs: usize,
    names: usize,
    texts: usize,
    items: usize,
) -> bool
    requires sized { Sized image.now }
    requires items_at_value { items_at ≡ items_place image.now }
    requires exprs_value { (exprs ≡ expr_count image.now) × (names ≡ name_count image.now) }
    requires texts_value { (texts ≡ text_count image.now) × (items ≡ item_total image.now) }
    ensures { let s = image.now in result ≡ (exprs_fit s && all_items_fit s) }
{
    let limit = items_at + bytes::ITEM * items;
    let mut next: usize = 0;
    let mut at: usize = items_at;
    for e in 0..exprs {
        let expr = image_fields::eight(image, bytes::HEADER + bytes::EXPR * e);
        let run = expr % RUN;
        let form = image_fields::part(expr, shifts::EXPR_FORM, bits::FORM);
        let text = image_fields::part(expr, shifts::EXPR_TEXT, bits::NUMBER);
        if run == next {
            if !image_rules::bare_fits(form, text, texts) {
                return false;
            }
            continue;
        }
        if run < next {
            return false;
        }
        let count = run - next;
        let stop = at + bytes::ITEM * count;
        if limit < stop {
            return false;
        }
        if !image_rules::owner_fits(form, text) {
            return false;
        }
        if !image_rules::items_fit(image, at, count, form / forms::ONE_KIND, e, names) {
            return false;
        }
        next += FIRST_ITEM * count;
        at = stop;
    }
    at == limit
}
