// An accepted image: what reads a tree image asks for one. It is made by `check`, or where the bytes are known to be accepted.
#![tactic(auto)]

ghost use Rattle.std.specs.Prelude.{◌≡◌, ◌+◌, ◌≤◌, ◌<◌, length, Ok, Err, IfOk, IfErr};
ghost use Rattle.semantics.specs.Codes.{widths};
ghost use Rattle.semantics.specs.Tree.{expr_at, name_at, text_at, item_at};
ghost use Rattle.image_fields.specs.Image.{expr_count, name_count, text_count, item_total, byte_total, items_place, item_place, item_here};
ghost use Rattle.image_fields.specs.Image.{first_of, count_of, text_first_of, text_length_of, text_place, decode};
ghost use Rattle.image.specs.Inside.Accepted.{Accepted};
ghost use Rattle.image.specs.Refusals.{image_refusal, verdict_of};

use codes::refusals::Refusal;
use codes::{bits, bytes, offsets};

#[derive(Clone, Copy)]
pub struct Image<'a> {
    pub bytes: &'a [u8],
    pub ghost accepted: { Accepted bytes.now },
}

impl<'a> Image<'a> {
    // The image, or its refusal.
    pub fn new(bytes: &'a [u8]) -> Result<Image<'a>, Refusal>
        ensures accepted { IfOk result (λ i. (i.bytes.now ≡ bytes.now) × (Ok tt ≡ verdict_of (image_refusal bytes.now))) }
        ensures refused { IfErr result (λ r. Err r ≡ verdict_of (image_refusal bytes.now)) }
    {
        crate::check(bytes)?;
        Ok(Image { bytes })
    }

    // The header.
    pub fn expr_count(self) -> usize
        ensures { result ≡ expr_count self.entry.bytes.now }
    {
        crate::expr_count(self.bytes)
    }

    pub fn name_count(self) -> usize
        ensures { result ≡ name_count self.entry.bytes.now }
    {
        crate::name_count(self.bytes)
    }

    pub fn text_count(self) -> usize
        ensures { result ≡ text_count self.entry.bytes.now }
    {
        crate::text_count(self.bytes)
    }

    pub fn item_total(self) -> usize
        ensures { result ≡ item_total self.entry.bytes.now }
    {
        crate::item_total(self.bytes)
    }

    pub fn byte_total(self) -> usize
        ensures { result ≡ byte_total self.entry.bytes.now }
    {
        crate::byte_total(self.bytes)
    }

    pub fn entry(self) -> usize
        ensures { result ≡ (decode self.entry.bytes.now).entry }
    {
        crate::entry(self.bytes)
    }

    // An expression of an accepted image. Its text is a text's number.
    pub fn kind(self, e: usize) -> usize
        requires { e < expr_count self.bytes.now }
        ensures { result ≡ (expr_at (decode self.entry.bytes.now) e).kind }
    {
        let at = bytes::HEADER + bytes::EXPR * e;
        image_fields::in_eight(self.bytes, at, offsets::EXPR_KIND, bits::KIND)
    }

    pub fn detail(self, e: usize) -> usize
        requires { e < expr_count self.bytes.now }
        ensures { result ≡ (expr_at (decode self.entry.bytes.now) e).detail }
    {
        let at = bytes::HEADER + bytes::EXPR * e;
        image_fields::in_eight(self.bytes, at, offsets::EXPR_DETAIL, bits::DETAIL)
    }

    pub fn expr_text(self, e: usize) -> usize
        requires { e < expr_count self.bytes.now }
        ensures { result ≡ (expr_at (decode self.entry.bytes.now) e).text }
    {
        let at = bytes::HEADER + bytes::EXPR * e;
        image_fields::in_eight(self.bytes, at, offsets::EXPR_TEXT, bits::NUMBER)
    }

    pub fn item_count(self, e: usize) -> usize
        requires { e < expr_count self.bytes.now }
        ensures { result ≡ length (expr_at (decode self.entry.bytes.now) e).items }
    {
        let at = bytes::HEADER + bytes::EXPR * e;
        image_fields::in_eight(self.bytes, at, offsets::EXPR_COUNT, bits::COUNT)
    }

    // Where the run of an expression's items starts in the item table.
    pub fn first_item(self, e: usize) -> usize
        requires { e < expr_count self.bytes.now }
        ensures { result ≡ first_of self.entry.bytes.now e }
    {
        let at = bytes::HEADER + bytes::EXPR * e;
        image_fields::in_eight(self.bytes, at, offsets::EXPR_FIRST, bits::COUNT)
    }

    // The byte at which the item table starts. Its items stand in the order of their owners.
    pub fn items_place(self) -> usize
        ensures { result ≡ items_place self.entry.bytes.now }
    {
        bytes::HEADER
            + bytes::EXPR * self.expr_count()
            + bytes::NAME * self.name_count()
            + bytes::TEXT * self.text_count()
    }

    // The byte at which an expression's item k stands: a loop over the items asks once, for k = 0, and goes on from there.
    pub fn item_place(self, e: usize, k: usize) -> usize
        requires { (e < expr_count self.bytes.now) × (k ≤ count_of self.bytes.now e) }
        ensures { let s = self.entry.bytes.now in result ≡ item_place s (first_of s e + k) }
    {
        self.items_place() + bytes::ITEM * (self.first_item(e) + k)
    }

    // The item at a byte.
    pub fn role_at(self, at: usize) -> usize
        requires { at + widths.item ≤ length self.bytes.now }
        ensures { result ≡ (item_here self.entry.bytes.now at).role }
    {
        crate::role_at(self.bytes, at)
    }

    pub fn name_at(self, at: usize) -> usize
        requires { at + widths.item ≤ length self.bytes.now }
        ensures { result ≡ (item_here self.entry.bytes.now at).name }
    {
        crate::name_at(self.bytes, at)
    }

    pub fn expression_at(self, at: usize) -> usize
        requires { at + widths.item ≤ length self.bytes.now }
        ensures { result ≡ (item_here self.entry.bytes.now at).expression }
    {
        crate::expression_at(self.bytes, at)
    }

    // An item by its owner and its number among the owner's items.
    pub fn item_role(self, e: usize, k: usize) -> usize
        requires { (e < expr_count self.bytes.now) × (k < count_of self.bytes.now e) }
        ensures { result ≡ (item_at (decode self.entry.bytes.now) e k).role }
    {
        self.role_at(self.item_place(e, k))
    }

    pub fn item_name(self, e: usize, k: usize) -> usize
        requires { (e < expr_count self.bytes.now) × (k < count_of self.bytes.now e) }
        ensures { result ≡ (item_at (decode self.entry.bytes.now) e k).name }
    {
        self.name_at(self.item_place(e, k))
    }

    pub fn item_expression(self, e: usize, k: usize) -> usize
        requires { (e < expr_count self.bytes.now) × (k < count_of self.bytes.now e) }
        ensures { result ≡ (item_at (decode self.entry.bytes.now) e k).expression }
    {
        self.expression_at(self.item_place(e, k))
    }

    // A name: the number of its text, and its kind.
    pub fn name_text(self, n: usize) -> usize
        requires { n < name_count self.bytes.now }
        ensures { result ≡ (name_at (decode self.entry.bytes.now) n).text }
    {
        let at = bytes::HEADER + bytes::EXPR * self.expr_count() + bytes::NAME * n;
        image_fields::in_four(self.bytes, at, offsets::NAME_TEXT, bits::NUMBER)
    }

    pub fn name_kind(self, n: usize) -> usize
        requires { n < name_count self.bytes.now }
        ensures { result ≡ (name_at (decode self.entry.bytes.now) n).kind }
    {
        let at = bytes::HEADER + bytes::EXPR * self.expr_count() + bytes::NAME * n;
        image_fields::in_four(self.bytes, at, offsets::NAME_KIND, bits::NAME_KIND)
    }

    // The byte at which a text's record stands.
    fn text_place(self, x: usize) -> usize
        requires { x < text_count self.bytes.now }
        ensures { result ≡ text_place self.entry.bytes.now x }
    {
        bytes::HEADER
            + bytes::EXPR * self.expr_count()
            + bytes::NAME * self.name_count()
            + bytes::TEXT * x
    }

    // Where a text's bytes start among the text bytes, and how many it has.
    pub fn text_first(self, x: usize) -> usize
        requires { x < text_count self.bytes.now }
        ensures { result ≡ text_first_of self.entry.bytes.now x }
    {
        let at = self.text_place(x);
        image_fields::in_four(self.bytes, at, offsets::TEXT_FIRST, bits::COUNT)
    }

    pub fn text_length(self, x: usize) -> usize
        requires { x < text_count self.bytes.now }
        ensures { result ≡ text_length_of self.entry.bytes.now x }
    {
        let at = self.text_place(x);
        image_fields::in_four(self.bytes, at, offsets::TEXT_LENGTH, bits::LENGTH)
    }

    // A text's bytes.
    pub fn text(self, x: usize) -> &'a [u8]
        requires { x < text_count self.bytes.now }
        ensures { result.now ≡ text_at (decode self.entry.bytes.now) x }
    {
        let from = self.bytes.len() - self.byte_total() + self.text_first(x);
        let to = from + self.text_length(x);
        &self.bytes[from..to]
    }
}
