// `NameDependencies` (nameres.rs, second half): the walk from an expression on.
#![tactic(auto)]

ghost use Rattle.std.specs.Prelude.{◌≡◌, ◌≤◌, ◌<◌, ◌^◌, length};
ghost use Rattle.semantics.specs.Tree.{expr_at};
ghost use Rattle.image_fields.specs.Image.{decode};
ghost use Rattle.walk_visit.specs.declared.Rule.{Rule};
ghost use Rattle.walk_visit.specs.Inside.Steps.{rule_of};
ghost use Rattle.walk_places.specs.Inside.Places.{Placed};
ghost use Rattle.walk_run.specs.Inside.Run.{sheet, Opened, Traversed};
ghost use Rattle.walk_run.specs.Inside.Items.{Rest, Leading, Led};
ghost use Rattle.walk_guard.specs.Inside.Added.{Ready};

use codes::{NONE, bytes};
use image::accepted::Image;
use walk_places::PLACES;
use walk_visit::{Rule, State, answers, items};

// So many items are gone through one by one, whether they lead to a visit or not, before places are asked for the next.
const NEAR: usize = 64;

// The walk from an expression on: one visit, and all below it.
pub fn traverse(
    image: Image<'_>,
    resolutions: &[u8],
    bindings: &[u8],
    edges: &mut [u8],
    narrowings: &mut [u8],
    exprs: &mut [u8],
    working: &mut [u8],
    e: usize,
    binding: usize,
    force: usize,
    state: &mut State,
)
    requires ready { Ready image.bytes.now resolutions.now bindings.now e force state.old }
    requires binding_bound { binding < 2 ^ 14 }
    ensures { let before = sheet state.old edges.old narrowings.old exprs.old working.old in
        let after = sheet state.new edges.new narrowings.new exprs.new working.new in
        Traversed image.entry.bytes.now resolutions.now bindings.now e binding force before after }
{
    answers::visit(image, resolutions, edges, e, binding, force, state);
    if state.left == 0 {
        return;
    }
    let mut places = [0u32; PLACES];
    walk_places::make(image, &mut places);
    let rule = items::rule(image, walk_places::items_at(&places), e);
    traverse_bindings(
        image,
        resolutions,
        bindings,
        edges,
        narrowings,
        exprs,
        working,
        &places,
        e,
        rule,
        0,
        binding,
        force,
        state,
    );
}

// The items of e, if no rule holds for them, up to the first that has items itself: they are visited without a descent. It goes through
// few that lead to no visit.
fn visit_leaves(
    image: Image<'_>,
    resolutions: &[u8],
    edges: &mut [u8],
    places: &[u32; PLACES],
    e: usize,
    rule: Rule,
    binding: usize,
    force: usize,
    state: &mut State,
) -> usize
    requires leading { Leading image.bytes.now resolutions.now e force state.old }
    requires binding_bound { (binding < 2 ^ 14) × (rule ≡ rule_of (decode image.bytes.now) e) × Placed image.bytes.now places.now }
    ensures { Led image.entry.bytes.now resolutions.now e binding force state.old edges.old state.new edges.new result }
{
    let Rule::Others = rule else {
        return 0;
    };
    let count = image.item_count(e);
    let items = walk_places::items_at(places) + bytes::ITEM * image.first_item(e);
    for k in 0..count {
        let child = image.expression_at(items + bytes::ITEM * k);
        if child == NONE {
            if k >= NEAR {
                return k;
            }
            continue;
        }
        if image.item_count(child) != 0 {
            return k;
        }
        answers::visit(image, resolutions, edges, child, binding, force, state);
        if state.left == 0 {
            return k;
        }
    }
    count
}

// One visit, and all below it. Called once, in the walk of items, whose frame it shares: only items that have items
// themselves take a frame more.
#[cycle(traverse_bindings_traverse_expr)]
fn traverse_expr(
    image: Image<'_>,
    resolutions: &[u8],
    bindings: &[u8],
    edges: &mut [u8],
    narrowings: &mut [u8],
    exprs: &mut [u8],
    working: &mut [u8],
    places: &[u32; PLACES],
    e: usize,
    binding: usize,
    force: usize,
    state: &mut State,
)
    requires ready { Ready image.bytes.now resolutions.now bindings.now e force state.old }
    requires binding_bound { (binding < 2 ^ 14) × Placed image.bytes.now places.now }
    ensures { let before = sheet state.old edges.old narrowings.old exprs.old working.old in
        let after = sheet state.new edges.new narrowings.new exprs.new working.new in
        Traversed image.entry.bytes.now resolutions.now bindings.now e binding force before after }
{
    answers::visit(image, resolutions, edges, e, binding, force, state);
    if state.left == 0 {
        return;
    }
    let count = image.item_count(e);
    if count == 0 {
        return;
    }
    let rule = items::rule(image, walk_places::items_at(places), e);
    let from = visit_leaves(
        image,
        resolutions,
        edges,
        places,
        e,
        rule,
        binding,
        force,
        state,
    );
    if state.left == 0 {
        return;
    }
    if from == count {
        return;
    }
    traverse_bindings(
        image,
        resolutions,
        bindings,
        edges,
        narrowings,
        exprs,
        working,
        places,
        e,
        rule,
        from,
        binding,
        force,
        state,
    );
}

// The items of an expression from one on, bindings and others. What a branch adds to the working list is cut back by not
// counting it here; one call in each function keeps small what a level holds on the stack.
#[cycle(traverse_bindings_traverse_expr)]
fn traverse_bindings(
    image: Image<'_>,
    resolutions: &[u8],
    bindings: &[u8],
    edges: &mut [u8],
    narrowings: &mut [u8],
    exprs: &mut [u8],
    working: &mut [u8],
    places: &[u32; PLACES],
    e: usize,
    rule: Rule,
    from: usize,
    binding: usize,
    force: usize,
    state: &mut State,
)
    requires ready { Ready image.bytes.now resolutions.now bindings.now e force state.old }
    requires binding_bound { (binding < 2 ^ 14) × Opened force state.old }
    requires placed { Placed image.bytes.now places.now × (rule ≡ rule_of (decode image.bytes.now) e) }
    requires from_in_bounds { (from ≤ length (expr_at (decode image.bytes.now) e).items) × (0 < from → rule ≡ Rule.Others) }
    ensures { let before = sheet state.old edges.old narrowings.old exprs.old working.old in
        let after = sheet state.new edges.new narrowings.new exprs.new working.new in
        Rest image.entry.bytes.now resolutions.now bindings.now e binding force from before after }
{
    let count = image.item_count(e);
    let items = walk_places::items_at(places) + bytes::ITEM * image.first_item(e);
    let mut rule = rule;
    let mut k: usize = from;
    while k < count {
        let at = items + bytes::ITEM * k;
        if !items::enters(image.bytes, rule, at) {
            k = walk_places::behind(image, places, e, k);
            continue;
        }
        let turn = k;
        k += 1;
        let child = image.expression_at(at);
        let inner = items::binding_in(image.bytes, rule, binding, at);
        let role = image.role_at(at);
        answers::open_binding(
            working, narrowings, exprs, rule, role, inner, child, force, state,
        );
        let inside = walk_guard::inside(
            image,
            resolutions,
            bindings,
            working,
            e,
            rule,
            turn,
            force,
            state,
        );
        if state.left == 0 {
            return;
        }
        rule = walk_guard::rule_behind(rule, turn, state.elses);
        traverse_expr(
            image,
            resolutions,
            bindings,
            edges,
            narrowings,
            exprs,
            working,
            places,
            child,
            inner,
            inside,
            state,
        );
        if state.left == 0 {
            return;
        }
    }
}
