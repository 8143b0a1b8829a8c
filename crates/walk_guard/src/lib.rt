// The condition of an IfThenElse, an Assert and a recognised call, and what it adds to the working list.
#![tactic(auto)]

ghost use Rattle.std.specs.Prelude.{◌≡◌, true, ◌+◌, ◌≤◌, ◌<◌, ◌^◌};
ghost use Rattle.semantics.specs.Narrow.{call_condition};
ghost use Rattle.semantics.specs.Walk.{condition_at};
ghost use Rattle.image_fields.specs.Image.{expr_count, decode};
ghost use Rattle.given.specs.Resolutions.{resolutions_fit};
ghost use Rattle.given.specs.Given.{given};
ghost use Rattle.given.specs.Inside.Resolved.{resolved};
ghost use Rattle.narrow_texts.specs.Inside.Numbers.{Finds};
ghost use Rattle.walk_visit.specs.Inside.Steps.{nodes_at};
ghost use Rattle.walk_guard.specs.Inside.Added.{item_of, beside, Ready, Spends, Ruled, Behind, Inside};

use codes::kinds;
use image::accepted::Image;
use narrow_run::{Progress, Takes};
use narrow_texts::chains;
use walk_visit::{Rule, State};

// One more than the budget of a list that may be as long as any: its nodes are not counted.
const UNBOUNDED: usize = 1 << 32;

// `detect_conditional_apply_narrowing`: the condition of a recognised call, from what is applied to its last argument.
// Which conditional function it is makes no difference here.
pub fn call_condition(image: Image<'_>, resolutions: &[u8], f: usize) -> Option<usize>
    requires { (f < expr_count image.bytes.now) × (resolutions_fit image.bytes.now resolutions.now ≡ true) }
    ensures { let s = image.entry.bytes.now in
        Finds (expr_count s) (call_condition (decode s) (resolved resolutions.now) f) result }
{
    if image.kind(f) != kinds::APPLY {
        return None;
    }
    chains::detect_conditional_fn(image, resolutions, image.item_expression(f, 0))?;
    Some(image.item_expression(f, 1))
}

// The condition that is analysed when e is visited.
fn condition_at(image: Image<'_>, resolutions: &[u8], e: usize) -> Option<usize>
    requires { (e < expr_count image.bytes.now) × (resolutions_fit image.bytes.now resolutions.now ≡ true) }
    ensures { let s = image.entry.bytes.now in
        Finds (expr_count s) (condition_at (decode s) (resolved resolutions.now) e) result }
{
    match image.kind(e) {
        kinds::APPLY => { call_condition(image, resolutions, image.item_expression(e, 0)) }
        kinds::IF_THEN_ELSE => Some(image.item_expression(e, 0)),
        kinds::ASSERT => Some(image.item_expression(e, 0)),
        _ => None,
    }
}

// The list that is only counted, beside the one that is taken: with the one for true the one for false.
fn counted_beside(taken: Takes) -> Takes
    ensures { result ≡ beside taken }
{
    match taken {
        Takes::ForTrue => Takes::ForFalse,
        Takes::ForFalse => Takes::Neither,
        Takes::Neither => Takes::Neither,
    }
}

// What the condition of e tells, behind what is in force: of its lists the one that `from` names. With the one for true its nodes
// are counted, as steps, and the records of the one for false, which need not be asked for if it has none.
fn analyzed(
    image: Image<'_>,
    resolutions: &[u8],
    bindings: &[u8],
    working: &mut [u8],
    e: usize,
    from: Takes,
    whole: usize,
    force: usize,
    state: &mut State,
) -> usize
    requires ready { Ready image.bytes.now resolutions.now bindings.now e force state.old }
    requires spends { Spends (decode image.bytes.now) (given resolutions.now bindings.now) e (item_of from) whole force state.old }
    ensures { let tables = given resolutions.now bindings.now in
        let t = decode image.entry.bytes.now in
        Inside t tables e (item_of from) force state.old working.old state.new working.new result }
{
    let Some(c) = condition_at(image, resolutions, e) else {
        return force;
    };
    let mut run = Progress {
        left: whole - force,
        thens: force,
        elses: 0,
    };
    let mut dropped = [0u8; 1]; // without room for a record, so that the list for false is only counted
    narrow_run::analyze_node(
        image,
        resolutions,
        bindings,
        working,
        &mut dropped,
        c,
        from,
        counted_beside(from),
        &mut run,
    );
    match from {
        Takes::ForTrue => {
            state.left = run.left;
            state.elses = run.elses;
            run.thens
        }
        Takes::ForFalse | Takes::Neither => run.thens,
    }
}

// The rule for the items behind item k: no condition is asked for where its list for false is empty.
pub fn rule_behind(rule: Rule, k: usize, elses: usize) -> Rule
    ensures { Behind rule k elses result }
{
    let Rule::Guarded = rule else {
        return rule;
    };
    if k != 1 {
        return rule;
    }
    if elses != 0 {
        return rule;
    }
    Rule::Others
}

// How many narrowings are in force inside item k: what the condition of e tells there is added. The analysis is
// called twice, so that it keeps a frame of its own and the walk's stays small.
pub fn inside(
    image: Image<'_>,
    resolutions: &[u8],
    bindings: &[u8],
    working: &mut [u8],
    e: usize,
    rule: Rule,
    k: usize,
    force: usize,
    state: &mut State,
) -> usize
    requires ready { Ready image.bytes.now resolutions.now bindings.now e force state.old }
    requires state_bound { 1 < k → force + nodes_at (decode image.bytes.now) (given resolutions.now bindings.now) e + state.old.left ≤ 2 ^ 32 }
    requires ruled { Ruled (decode image.bytes.now) (given resolutions.now bindings.now) e rule k }
    ensures { let tables = given resolutions.now bindings.now in
        let t = decode image.entry.bytes.now in
        Inside t tables e k force state.old working.old state.new working.new result }
{
    let Rule::Guarded = rule else {
        return force;
    };
    match k {
        1 => {
            let whole = state.left + force;
            analyzed(
                image,
                resolutions,
                bindings,
                working,
                e,
                Takes::ForTrue,
                whole,
                force,
                state,
            )
        }
        2 => analyzed(
            image,
            resolutions,
            bindings,
            working,
            e,
            Takes::ForFalse,
            UNBOUNDED,
            force,
            state,
        ),
        _ => force,
    }
}
