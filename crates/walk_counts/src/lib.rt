// How often each expression is visited by the walk, from large numbers to small: its steps without a visit.
#![tactic(auto)]

ghost use Rattle.std.specs.Prelude.{◌≡◌, true, ◌≤◌, ◌<◌, ◌^◌, length};
ghost use Rattle.semantics.specs.Tree.{expr_at};
ghost use Rattle.semantics.specs.Walk.{condition_at};
ghost use Rattle.image_fields.specs.Image.{expr_count, items_place, decode};
ghost use Rattle.given.specs.Resolutions.{resolutions_fit};
ghost use Rattle.given.specs.Inside.Resolved.{resolved};
ghost use Rattle.resolve_counts.specs.Inside.Visits.{Holds};
ghost use Rattle.narrow_texts.specs.Inside.Numbers.{Finds};
ghost use Rattle.narrow_counts.specs.Inside.Nodes.{Filled};
ghost use Rattle.walk_visit.specs.Inside.Steps.{rule_of};
ghost use Rattle.walk_counts.specs.Inside.Visits.{Weighed, Pushed, Counted, Affordable};

use codes::{bytes, kinds};
use image::accepted::Image;
use narrow_counts::STEPS_AN_EXPR;
use resolve_counts::{FEW, MANY, MORE, SOME};
use walk_visit::{Rule, items};

// The condition that is analysed when e is visited. `walk_guard` has the same for the walk: were it one function of two callers, the
// compiler would leave it out of the analysis, and put the analysis, which is small then, into each frame of the walk.
fn condition_at(image: Image<'_>, resolutions: &[u8], e: usize) -> Option<usize>
    requires { (e < expr_count image.bytes.now) × (resolutions_fit image.bytes.now resolutions.now ≡ true) }
    ensures { let s = image.entry.bytes.now in
        Finds (expr_count s) (condition_at (decode s) (resolved resolutions.now) e) result }
{
    match image.kind(e) {
        kinds::APPLY => walk_guard::call_condition(image, resolutions, image.item_expression(e, 0)),
        kinds::IF_THEN_ELSE => Some(image.item_expression(e, 0)),
        kinds::ASSERT => Some(image.item_expression(e, 0)),
        _ => None,
    }
}

// What a visit of e counts: itself, and the nodes of the condition that is analysed there.
fn weight(image: Image<'_>, resolutions: &[u8], nodes: &[u32], e: usize, rule: Rule) -> usize
    requires resolutions_value { resolutions_fit image.bytes.now resolutions.now ≡ true }
    requires e_bound { (e < expr_count image.bytes.now) × (expr_count image.bytes.now ≤ length nodes.now) × (rule ≡ rule_of (decode image.bytes.now) e) }
    requires filled { Filled (decode image.bytes.now) (expr_count image.bytes.now) nodes.now }
    ensures { Weighed (decode image.entry.bytes.now) (resolved resolutions.now) e result }
{
    let Rule::Guarded = rule else {
        return 1;
    };
    match condition_at(image, resolutions, e) {
        Some(c) => 1 + nodes[c] as usize,
        None => 1,
    }
}

// v visits of e: as many more of what its items lead to under a rule.
fn push(image: Image<'_>, visits: &mut [u32], items_at: usize, e: usize, rule: Rule, v: usize)
    requires e_bound { (e < expr_count image.bytes.now) × (items_at ≡ items_place image.bytes.now) × (v < 2 ^ 32) }
    requires image_in_bounds { expr_count image.bytes.now ≤ length visits.old }
    ensures { let s = image.entry.bytes.now in
        Pushed s rule (expr_at (decode s) e).items v visits.old visits.new }
{
    let first = items_at + bytes::ITEM * image.first_item(e);
    for k in 0..image.item_count(e) {
        let at = first + bytes::ITEM * k;
        if !items::enters(image.bytes, rule, at) {
            continue;
        }
        let child = image.expression_at(at);
        resolve_counts::add(visits, child, v);
    }
}

// The steps of a walk, or steps that exceed the budget, from the nodes of each expression. `visits` has a number for each, all zero.
fn count_visits(
    image: Image<'_>,
    resolutions: &[u8],
    nodes: &[u32],
    visits: &mut [u32],
    budget: usize,
) -> usize
    requires resolutions_value { resolutions_fit image.bytes.now resolutions.now ≡ true }
    requires budget_bound { (budget < 2 ^ 32) × (expr_count image.bytes.now ≤ length nodes.now) }
    requires filled { Filled (decode image.bytes.now) (expr_count image.bytes.now) nodes.now }
    requires holds { Holds (expr_count image.bytes.now) (λ e. 0) visits.old }
    ensures { Counted (decode image.entry.bytes.now) resolutions.now budget result }
{
    let items_at = image.items_place();
    let entry = image.entry();
    visits[entry] = 1;
    let mut steps = 0;
    for e in (0..entry + 1).rev() {
        let v = visits[e] as usize;
        if v == 0 {
            continue;
        }
        let rule = items::rule(image, items_at, e);
        steps += v * weight(image, resolutions, nodes, e, rule);
        if steps > budget {
            return steps;
        }
        push(image, visits, items_at, e, rule, v);
    }
    steps
}

// The same with both rooms lent, both all zero.
fn count_steps(
    image: Image<'_>,
    resolutions: &[u8],
    nodes: &mut [u32],
    visits: &mut [u32],
    budget: usize,
) -> usize
    requires resolutions_value { resolutions_fit image.bytes.now resolutions.now ≡ true }
    requires budget_bound { (budget < 2 ^ 32) × (expr_count image.bytes.now ≤ length nodes.old) }
    requires holds { Holds (expr_count image.bytes.now) (λ e. 0) visits.old }
    ensures { Counted (decode image.entry.bytes.now) resolutions.now budget result }
{
    narrow_counts::fill_nodes(image, nodes, image.expr_count());
    count_visits(image, resolutions, nodes, visits, budget)
}

// The same with room of its own, for as many expressions as ROOM, which is few, some or many.
// Each size has a frame of its own, so that the stack has the room that is used and no other.
#[inline(never)]
fn count_within<const ROOM: usize>(image: Image<'_>, resolutions: &[u8], budget: usize) -> usize
    requires resolutions_value { resolutions_fit image.bytes.now resolutions.now ≡ true }
    requires budget_bound { (budget < 2 ^ 32) × (expr_count image.bytes.now ≤ ROOM) }
    requires room_bound { ROOM ≤ 16384 }
    ensures { Counted (decode image.entry.bytes.now) resolutions.now budget result }
{
    let mut nodes = [0u32; ROOM];
    let mut visits = [0u32; ROOM];
    count_steps(image, resolutions, &mut nodes, &mut visits, budget)
}

// The steps in this room if it is enough for all expressions, else in more; it calls itself as `resolve_counts::count_in` does.
fn count_in(image: Image<'_>, resolutions: &[u8], budget: usize, room: usize) -> usize
    requires resolutions_value { resolutions_fit image.bytes.now resolutions.now ≡ true }
    requires budget_bound { budget < 2 ^ 32 }
    requires room_nonzero { 0 < room }
    ensures { Counted (decode image.entry.bytes.now) resolutions.now budget result }
{
    if image.expr_count() > room {
        return count_in(image, resolutions, budget, MORE * room);
    }
    if room <= FEW {
        return count_within::<FEW>(image, resolutions, budget);
    }
    if room <= SOME {
        return count_within::<SOME>(image, resolutions, budget);
    }
    count_within::<MANY>(image, resolutions, budget)
}

// Whether a walk is within a budget, asked of a large budget alone.
pub fn affordable(image: Image<'_>, resolutions: &[u8], budget: usize) -> bool
    requires resolutions_value { resolutions_fit image.bytes.now resolutions.now ≡ true }
    requires budget_bound { budget < 2 ^ 32 }
    ensures { Affordable image.entry.bytes.now resolutions.now budget result }
{
    if budget <= STEPS_AN_EXPR * image.expr_count() {
        return true;
    }
    count_in(image, resolutions, budget, FEW) <= budget
}
