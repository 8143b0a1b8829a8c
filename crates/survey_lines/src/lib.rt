// The lines of each table: one for each entry that has something to say.
#![tactic(auto)]

ghost use Rattle.std.specs.Prelude.{◌≡◌, ℕ, List, ◌/◌, ◌<◌, length};
ghost use Rattle.semantics.specs.Codes.{widths};
ghost use Rattle.survey_lines.specs.Inside.Page.{Printed};
ghost use Rattle.survey_lines.specs.Text.{lines};
ghost use Rattle.survey_lines.specs.Lines.{resolution_line, edge_line, bind_line, narrow_line};

use codes::{bits, bytes, offsets, tags};
use text::Page;

pub mod text;

// A table, and the line of each entry.
pub trait Table {
    ghost entries: { Self → ℕ };

    ghost line: { Self → ℕ → List ℕ };

    fn entries(&self) -> usize
        ensures { result ≡ entries self.now };

    fn put_entry(&self, i: usize, page: &mut Page)
        requires { i < entries self.now }
        ensures { Printed (line self.now i) page.old page.new };
}

pub fn put_lines<T: Table>(table: &T, page: &mut Page)
    ensures { Printed (lines (T.line table.now) 0 (T.entries table.now)) page.old page.new }
{
    for i in 0..table.entries() {
        table.put_entry(i, page);
    }
}

// What the expressions refer to.
#[derive(Drop)]
pub struct Resolutions<'a>(pub &'a [u8]);

impl Table for Resolutions<'_> {
    ghost entries = { λ t. length t.0.now / widths.entry };

    ghost line = { λ t. resolution_line t.0.now };

    fn entries(&self) -> usize {
        self.0.len() / bytes::ENTRY
    }

    fn put_entry(&self, i: usize, page: &mut Page) {
        let tag = given::tag(self.0, i);
        if tag == tags::NONE {
            return;
        }
        let value = [given::value(self.0, i)];
        page.put_decimal(i);
        if tag == tags::DEFINITION {
            return page.put_line(b" def", &value);
        }
        if tag == tags::BUILTIN {
            return page.put_line(b" builtin", &value);
        }
        page.put_line(b" with", &value);
    }
}

#[derive(Drop)]
pub struct Edges<'a>(pub &'a [u8]);

impl Table for Edges<'_> {
    ghost entries = { λ t. length t.0.now / widths.edge };

    ghost line = { λ t. edge_line t.0.now };

    fn entries(&self) -> usize {
        self.0.len() / bytes::EDGE
    }

    fn put_entry(&self, i: usize, page: &mut Page) {
        let edge = bytes::EDGE * i;
        let numbers = [
            image_fields::field(self.0, edge, offsets::EDGE_FROM, bits::NUMBER),
            image_fields::field(self.0, edge, offsets::EDGE_TO, bits::NUMBER),
        ];
        page.put_line(b"edge", &numbers);
    }
}

// The expressions that the walk gave the names.
#[derive(Drop)]
pub struct Bound<'a>(pub &'a [u8]);

impl Table for Bound<'_> {
    ghost entries = { λ t. length t.0.now / widths.entry };

    ghost line = { λ t. bind_line t.0.now };

    fn entries(&self) -> usize {
        self.0.len() / bytes::ENTRY
    }

    fn put_entry(&self, i: usize, page: &mut Page) {
        let Some(expression) = given::binding_expr(self.0, i) else {
            return;
        };
        let numbers = [i, expression];
        page.put_line(b"bind", &numbers);
    }
}

#[derive(Drop)]
pub struct Narrowings<'a>(pub &'a [u8]);

impl Table for Narrowings<'_> {
    ghost entries = { λ t. length t.0.now / widths.recorded };

    ghost line = { λ t. narrow_line t.0.now };

    fn entries(&self) -> usize {
        self.0.len() / bytes::RECORDED
    }

    fn put_entry(&self, i: usize, page: &mut Page) {
        let recorded = bytes::RECORDED * i;
        let numbers = [
            image_fields::field(self.0, recorded, offsets::RECORDED_BINDING, bits::NUMBER),
            image_fields::field(self.0, recorded, offsets::RECORDED_NAME, bits::NUMBER),
            image_fields::field(self.0, recorded, offsets::RECORDED_SORT, bits::SORT),
            image_fields::field(self.0, recorded, offsets::RECORDED_VALUE, bits::NUMBER),
        ];
        page.put_line(b"narrow", &numbers);
    }
}
