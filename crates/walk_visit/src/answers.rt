// What the walk answers: edges, recorded narrowings, and the expressions of names.
ghost use Rattle.std.specs.Prelude.{◌≡◌, ◌+◌, ◌*◌, ◌≤◌, ◌<◌, ◌^◌, max, length, true};
ghost use Rattle.semantics.specs.Codes.{none_number};
ghost use Rattle.image_fields.specs.Image.{expr_count, decode};
ghost use Rattle.image_fields.specs.Inside.Numbers.{number_or};
ghost use Rattle.given.specs.Resolutions.{resolutions_fit};
ghost use Rattle.given.specs.Inside.Resolved.{resolved};
ghost use Rattle.narrow_texts.specs.Inside.Numbers.{numbered};
ghost use Rattle.walk_visit.specs.Inside.Parts.{Stepped, Edged, Copied, Recorded, Bound};

use crate::{Rule, State, items};
use codes::{NONE, bits, bytes, shifts};
use image::accepted::Image;
use narrow_texts::names;

// What one name counts before another, and such a pair in an edge, and a name in a binding.
const ONE_FROM: usize = 1 << bits::NUMBER;

const ONE_PAIR: usize = 1 << shifts::EDGE_TO;

const ONE_BINDING: usize = 1 << shifts::BINDING;

// What was found as a number, `NONE` for nothing: with the cases of an `Option` each level of the walk took 16 bytes more.
#[tactic(auto, unfolding(image_fields::specs::Inside::Numbers::number_or))]
fn number(found: Option<usize>) -> usize
    ensures { result ≡ number_or none_number found }
{
    found.unwrap_or(NONE)
}

// The edge from the binding around a Reference to the name that it resolves to.
fn edge(
    image: Image<'_>,
    resolutions: &[u8],
    edges: &mut [u8],
    e: usize,
    binding: usize,
    state: &mut State,
)
    requires e_bound { (e < expr_count image.bytes.now) × (resolutions_fit image.bytes.now resolutions.now ≡ true) }
    requires binding_bound { (binding < 2 ^ 14) × (state.old.edges < 2 ^ 32) }
    ensures { let t = decode image.entry.bytes.now in
        Edged t (resolved resolutions.now) e (numbered binding) state.old edges.old state.new edges.new }
{
    if binding == NONE {
        return;
    }
    let name = number(names::expr_as_local_name(image, resolutions, e));
    if name == NONE {
        return;
    }
    lent::put32(
        edges,
        bytes::EDGE * state.edges,
        (binding * ONE_FROM + name) * ONE_PAIR,
    );
    state.edges += 1;
}

// One step, at which so many narrowings are in force.
pub fn visit(
    image: Image<'_>,
    resolutions: &[u8],
    edges: &mut [u8],
    e: usize,
    binding: usize,
    force: usize,
    state: &mut State,
)
    requires e_bound { (e < expr_count image.bytes.now) × (resolutions_fit image.bytes.now resolutions.now ≡ true) }
    requires binding_bound { (binding < 2 ^ 14) × (0 < state.old.left) × (state.old.edges + state.old.left ≤ 2 ^ 32) }
    ensures { let t = decode image.entry.bytes.now in
        Stepped t (resolved resolutions.now) e (numbered binding) force state.old edges.old state.new edges.new }
{
    state.left -= 1;
    if state.left == 0 {
        return;
    }
    state.most = state.most.max(force);
    edge(image, resolutions, edges, e, binding, state);
}

// What is in force, under a name, behind so many recorded narrowings. Without room for all nothing is copied.
fn record_active(working: &[u8], narrowings: &mut [u8], name: usize, force: usize, count: usize)
    requires { (name < 2 ^ 14) × (count + force < 2 ^ 64) }
    ensures { Copied name force count working.now narrowings.old narrowings.new }
{
    if working.len() / bytes::RECORD < force {
        return;
    }
    if narrowings.len() / bytes::RECORDED < count + force {
        return;
    }
    for i in 0..force {
        let at = bytes::RECORDED * (count + i);
        lent::put32(narrowings, at, name * ONE_BINDING);
        lent::put32(
            narrowings,
            at + bytes::BINDING,
            image_fields::four(working, bytes::RECORD * i),
        );
    }
}

// A binding's own expression, before it is visited: the name's expression, and what is in force for it.
fn record_binding(
    working: &[u8],
    narrowings: &mut [u8],
    exprs: &mut [u8],
    name: usize,
    e: usize,
    force: usize,
    state: &mut State,
)
    requires { (name < 2 ^ 14) × (state.old.recorded + force < 2 ^ 64) }
    ensures { Recorded name e force working.now state.old narrowings.old exprs.old state.new narrowings.new exprs.new }
{
    lent::put16(exprs, bytes::ENTRY * name, e);
    record_active(working, narrowings, name, force, state.recorded);
    state.recorded += force;
}

// The same where an item is the own expression of a binding.
pub fn open_binding(
    working: &[u8],
    narrowings: &mut [u8],
    exprs: &mut [u8],
    rule: Rule,
    role: usize,
    name: usize,
    e: usize,
    force: usize,
    state: &mut State,
)
    requires { (name < 2 ^ 14) × (state.old.recorded + force < 2 ^ 64) }
    ensures { Bound rule role name e force working.now state.old narrowings.old exprs.old state.new narrowings.new exprs.new }
{
    if !items::opens(rule, role) {
        return;
    }
    record_binding(working, narrowings, exprs, name, e, force, state);
}
