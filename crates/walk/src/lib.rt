// The walk (nameres.rs, second half): which names a binding's expression refers to, and what is narrowed where it stands.
#![tactic(auto)]

ghost use Rattle.std.specs.Prelude.{◌≡◌, true};
ghost use Rattle.given.specs.Bindings.{bindings_fit};
ghost use Rattle.given.specs.Resolutions.{resolutions_fit};
ghost use Rattle.lent.specs.Calls.{first_broken, leaves, outcome_after, outcome};
ghost use Rattle.walk.specs.Outcome.{question, lent, run_rules, fit_rules, walking};

use codes::NONE;
use codes::refusals::Refusal;
use image::accepted::Image;
use walk_visit::State;

mod ended;

// What a walk answers: the steps of the run, and how many edges and recorded narrowings it has.
#[derive(Clone, Copy)]
pub struct Walked {
    pub steps: u32,
    pub edges: u32,
    pub narrowings: usize,
}

// Of a call that has no answer.
pub const NOTHING: Walked = Walked {
    steps: 0,
    edges: 0,
    narrowings: 0,
};

// The call on an accepted image, with tables that fit.
pub fn walk(
    image: Image<'_>,
    resolutions: &[u8],
    bindings: &[u8],
    budget: u32,
    edges: &mut [u8],
    narrowings: &mut [u8],
    exprs: &mut [u8],
    working: &mut [u8],
) -> Result<Walked, Refusal>
    requires { (resolutions_fit image.bytes.now resolutions.now ≡ true) × (bindings_fit image.bytes.now bindings.now ≡ true) }
    ensures { let q = question image.entry.bytes.now resolutions.now bindings.now budget in
        let before = lent edges.old narrowings.old exprs.old working.old in
        let after = lent edges.new narrowings.new exprs.new working.new in
        leaves result after ≡ outcome_after walking (first_broken (run_rules q before)) q before }
{
    if !walk_counts::affordable(image, resolutions, budget as usize) {
        return ended::exceeded(edges, narrowings, exprs, working);
    }
    let whole = budget as usize + 1;
    let names = image.name_count();
    let entry = image.entry();
    ended::clear_names(exprs, names);
    let mut state = State {
        left: whole,
        edges: 0,
        recorded: 0,
        most: 0,
        elses: 0,
    };
    walk_run::traverse(
        image,
        resolutions,
        bindings,
        edges,
        narrowings,
        exprs,
        working,
        entry,
        NONE,
        0,
        &mut state,
    );
    ended::ended(&state, whole, names, edges, narrowings, exprs, working)
}

// The call on an accepted image.
fn checked(
    image: Image<'_>,
    resolutions: &[u8],
    bindings: &[u8],
    budget: u32,
    edges: &mut [u8],
    narrowings: &mut [u8],
    exprs: &mut [u8],
    working: &mut [u8],
) -> Result<Walked, Refusal>
    ensures { let q = question image.entry.bytes.now resolutions.now bindings.now budget in
        let before = lent edges.old narrowings.old exprs.old working.old in
        let after = lent edges.new narrowings.new exprs.new working.new in
        leaves result after ≡ outcome_after walking (first_broken (fit_rules q before)) q before }
{
    if !given::resolutions_fit(image, resolutions) {
        return Err(Refusal::Given);
    }
    if !given::bindings_fit(image, bindings) {
        return Err(Refusal::Given);
    }
    walk(
        image,
        resolutions,
        bindings,
        budget,
        edges,
        narrowings,
        exprs,
        working,
    )
}

// `NameDependencies::new`: the edges, the recorded narrowings and the name expressions of an image with its tables.
pub fn name_dependencies(
    image: &[u8],
    resolutions: &[u8],
    bindings: &[u8],
    budget: u32,
    edges: &mut [u8],
    narrowings: &mut [u8],
    exprs: &mut [u8],
    working: &mut [u8],
) -> Result<Walked, Refusal>
    ensures { let q = question image.now resolutions.now bindings.now budget in
        let before = lent edges.old narrowings.old exprs.old working.old in
        let after = lent edges.new narrowings.new exprs.new working.new in
        leaves result after ≡ outcome walking q before }
{
    let image = Image::new(image)?;
    checked(
        image,
        resolutions,
        bindings,
        budget,
        edges,
        narrowings,
        exprs,
        working,
    )
}
