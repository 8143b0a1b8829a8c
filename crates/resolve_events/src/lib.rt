// The scope pass of `ModuleScopes` (nameres.rs) backwards: each expression is entered once, where its last visit is. What it meets
// is logged in the working buffer; what it has entered is marked in the table.
#![tactic(auto)]

ghost use Rattle.std.specs.Prelude.{◌≡◌, drop, ◌^◌, ◌+◌, ◌*◌, ◌≤◌, ◌<◌};
ghost use Rattle.semantics.specs.Codes.{kinds, widths};
ghost use Rattle.image_fields.specs.Image.{expr_count, decode};
ghost use Rattle.resolve_laws.specs.Inside.Logged.{half, Traced};
ghost use Rattle.resolve_events.specs.Inside.Turns.{has_bindings};
ghost use Rattle.resolve_events.specs.Inside.Pass.{visit, sheet, pass, entering, pass_below, spare_of};
ghost use Rattle.resolve_events.specs.Inside.Pass.{round_of, when_of, ends_with, place_of, around_of};
ghost use Rattle.resolve_events.specs.Inside.Pass.{Ready, Traversed, Ended, Blank};

use codes::{NONE, bytes, entries, kinds, roles};
use image::accepted::Image;

// A round over the items of an expression: all of what has no bindings; of bindings those inside, and then, if there are any,
// those outside.
#[derive(Clone, Copy, PartialEq, Eq)]
enum Round {
    Whole,
    Inside,
    Outside,
}

// When an item is visited: now, not in this round, in the one to come.
#[derive(Clone, Copy, PartialEq, Eq)]
enum Due {
    Now,
    Not,
    Later,
}

// One visit: its mark, which is the With around a Reference, and the event of a Reference.
fn enter(
    image: Image<'_>,
    table: &mut [u8],
    working: &mut [u8],
    e: usize,
    with: usize,
    at: usize,
) -> usize
    requires ready { Ready image.bytes.now e with 0 (sheet table.old working.old at) }
    requires e_value { half table.old e ≡ 0 }
    ensures { let t = decode image.entry.bytes.now in
        let before = sheet table.old working.old at in
        let after = sheet table.new working.new result in
        Traversed image.entry.bytes.now (λ c. entering t (visit e c)) with 0 (spare_of t e) before after }
{
    if image.kind(e) != kinds::REFERENCE {
        lent::put16(table, bytes::ENTRY * e, entries::WITH + NONE);
        return at;
    }
    lent::put16(table, bytes::ENTRY * e, entries::WITH + with);
    lent::put16(working, bytes::EVENT * at, e);
    at + 1
}

// The end of what lies inside e, where the turns leave it and something was logged since it began: e, and where that is.
fn end(working: &mut [u8], ends: bool, e: usize, start: usize, at: usize) -> usize
    requires { (e < 2 ^ 14) × (start < 2 ^ 16) × (at < 2 ^ 16) }
    ensures { Ended ends e start working.old at working.new result }
{
    if !ends {
        return at;
    }
    if at <= start {
        return at;
    }
    lent::put16(working, bytes::EVENT * at, e);
    lent::put16(working, bytes::EVENT * at + bytes::EVENT_PLACE, start);
    at + 1
}

// Whether an expression has bindings: a LetIn, an AttrSet.
#[tactic(auto, unfolding(crate::specs::Inside::Turns::has_bindings))]
fn has_bindings(kind: usize) -> bool
    ensures { result ≡ has_bindings kind }
{
    kind == kinds::LET_IN || kind == kinds::ATTR_SET
}

// The first round over the items of an expression.
#[tactic(auto, unfolding(crate::specs::Inside::Pass::round_of))]
fn first_round(kind: usize) -> Round
    ensures { result ≡ round_of kind }
{
    if has_bindings(kind) {
        Round::Inside
    } else {
        Round::Whole
    }
}

// When an item is visited, which needs an expression: of bindings the inherited outside, the others but an InheritFrom inside.
#[tactic(auto, unfolding(crate::specs::Inside::Pass::when_of, crate::specs::Inside::Pass::when_role, semantics::specs::Tree::is_none))]
fn when(round: Round, role: usize, expression: usize) -> Due
    ensures { result ≡ when_of round role expression }
{
    if expression == NONE {
        return Due::Not;
    }
    match (round, role) {
        (Round::Whole, _) => Due::Now,
        (Round::Inside, roles::INHERIT) => Due::Later,
        (Round::Inside, roles::INHERIT_FROM) => Due::Not,
        (Round::Inside, _) => Due::Now,
        (Round::Outside, roles::INHERIT) => Due::Now,
        (Round::Outside, _) => Due::Not,
    }
}

// Whether the end of what lies inside is due after a round: it can define names.
#[tactic(auto, unfolding(crate::specs::Inside::Pass::ends_with))]
fn ends_with(kind: usize, round: Round) -> bool
    ensures { result ≡ ends_with kind round }
{
    round == Round::Inside || kind == kinds::LAMBDA
}

// The item of a turn: an Assert's body comes before its cond. By `^`, so that a loop over many items counts by one number.
#[tactic(auto, unfolding(crate::specs::Inside::Pass::place_of))]
fn place(kind: usize, k: usize) -> usize
    requires { kind ≡ kinds.Assert → k ≤ 1 }
    ensures { result ≡ place_of kind k }
{
    let turned = if kind == kinds::ASSERT { 1 } else { 0 };
    k ^ turned
}

// The With around what item k visits: a With's env is outside it.
#[tactic(auto, unfolding(crate::specs::Inside::Pass::around_of))]
fn around(kind: usize, k: usize, e: usize, with: usize) -> usize
    ensures { result ≡ around_of kind k e with }
{
    if kind != kinds::WITH {
        return with;
    }
    if k == 0 { with } else { e }
}

// One visit, and all below it: what has its mark was entered, with all below it.
#[cycle(traverse_bindings_traverse_expr)]
fn traverse_expr(
    image: Image<'_>,
    table: &mut [u8],
    working: &mut [u8],
    e: usize,
    with: usize,
    at: usize,
) -> usize
    requires { Ready image.bytes.now e with 0 (sheet table.old working.old at) }
    ensures { let t = decode image.entry.bytes.now in
        let before = sheet table.old working.old at in
        let after = sheet table.new working.new result in
        Traversed image.entry.bytes.now (λ c. pass t (visit e c)) with 0 0 before after }
{
    if image_fields::two(table, bytes::ENTRY * e) != 0 {
        return at;
    }
    let count = image.item_count(e);
    let here = enter(image, table, working, e, with, at);
    if count == 0 {
        return here;
    }
    traverse_bindings(image, table, working, e, with, here)
}

// The items of an expression, bindings and others, from the last to the first. The pass starts here, and what has no items
// does not come here, so that a level is one frame and a leaf none.
#[cycle(traverse_bindings_traverse_expr)]
fn traverse_bindings(
    image: Image<'_>,
    table: &mut [u8],
    working: &mut [u8],
    e: usize,
    with: usize,
    at: usize,
) -> usize
    requires { Ready image.bytes.now e with (spare_of (decode image.bytes.now) e) (sheet table.old working.old at) }
    ensures { let t = decode image.entry.bytes.now in
        let before = sheet table.old working.old at in
        let after = sheet table.new working.new result in
        Traversed image.entry.bytes.now (pass_below t e) with (spare_of t e) 0 before after }
{
    let kind = image.kind(e);
    let items = image.item_place(e, 0);
    let mut k = image.item_count(e);
    let mut round = first_round(kind);
    let mut outside = false;
    let mut now_at = at;
    loop {
        if k == 0 {
            now_at = end(working, ends_with(kind, round), e, at, now_at);
            if !outside {
                return now_at;
            }
            outside = false;
            round = Round::Outside;
            k = image.item_count(e);
            continue;
        }
        k -= 1;
        let item = items + bytes::ITEM * place(kind, k);
        let role = image.role_at(item);
        let child = image.expression_at(item);
        match when(round, role, child) {
            Due::Now => {
                let with = around(kind, k, e, with);
                now_at = traverse_expr(image, table, working, child, with, now_at);
            }
            Due::Not => {}
            Due::Later => outside = true,
        }
    }
}

// `ModuleScopes::new` from the entry in the root scope, backwards: the number of events.
pub fn trace(image: Image<'_>, table: &mut [u8], working: &mut [u8]) -> usize
    requires { Blank image.bytes.now table.old working.old }
    ensures traced { Traced (decode image.entry.bytes.now) table.new working.new result }
    ensures table_after { let marks = widths.entry * expr_count image.entry.bytes.now in
        drop marks table.new ≡ drop marks table.old }
{
    let entry = image.entry();
    let here = enter(image, table, working, entry, NONE, 0);
    traverse_bindings(image, table, working, entry, NONE, here)
}
