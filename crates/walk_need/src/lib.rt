// What `name_dependencies` needs of an image and its tables: the steps, and how many edges, recorded narrowings and narrowings in force there are.
#![tactic(auto)]

ghost use Rattle.std.specs.Prelude.{◌≡◌, true};
ghost use Rattle.given.specs.Bindings.{bindings_fit};
ghost use Rattle.given.specs.Resolutions.{resolutions_fit};
ghost use Rattle.lent.specs.Calls.{first_broken, leaves, outcome_after, outcome};
ghost use Rattle.walk.specs.Outcome.{question};
ghost use Rattle.walk_need.specs.Outcome.{lent, run_rules, fit_rules, needing};

use codes::NONE;
use codes::refusals::Refusal;
use image::accepted::Image;
use walk_visit::State;

// The refusal of a run that exceeds its budget.
const EXCEEDED: Refusal = Refusal::OverBudget;

// What a walk needs: its steps, its edges, its recorded narrowings, and the most in force.
#[derive(Clone, Copy)]
pub struct Needed {
    pub steps: u32,
    pub edges: usize,
    pub narrowings: usize,
    pub most: usize,
}

// Of a call that has no answer.
pub const NOTHING: Needed = Needed {
    steps: 0,
    edges: 0,
    narrowings: 0,
    most: 0,
};

// The call on an accepted image, with tables that fit: a run that has no room for anything counts the same.
fn need(
    image: Image<'_>,
    resolutions: &[u8],
    bindings: &[u8],
    budget: u32,
) -> Result<Needed, Refusal>
    requires { (resolutions_fit image.bytes.now resolutions.now ≡ true) × (bindings_fit image.bytes.now bindings.now ≡ true) }
    ensures { let q = question image.entry.bytes.now resolutions.now bindings.now budget in
        leaves result lent ≡ outcome_after needing (first_broken (run_rules q)) q lent }
{
    if !walk_counts::affordable(image, resolutions, budget as usize) {
        return Err(EXCEEDED);
    }
    let whole = budget as usize + 1;
    let entry = image.entry();
    let mut edges = [0u8; 1];
    let mut narrowings = [0u8; 1];
    let mut exprs = [0u8; 1];
    let mut working = [0u8; 1];
    let mut state = State {
        left: whole,
        edges: 0,
        recorded: 0,
        most: 0,
        elses: 0,
    };
    walk_run::traverse(
        image,
        resolutions,
        bindings,
        &mut edges,
        &mut narrowings,
        &mut exprs,
        &mut working,
        entry,
        NONE,
        0,
        &mut state,
    );
    if state.left == 0 {
        return Err(EXCEEDED);
    }
    Ok(Needed {
        steps: (whole - state.left) as u32,
        edges: state.edges,
        narrowings: state.recorded,
        most: state.most,
    })
}

// The call on an accepted image.
fn checked(
    image: Image<'_>,
    resolutions: &[u8],
    bindings: &[u8],
    budget: u32,
) -> Result<Needed, Refusal>
    ensures { let q = question image.entry.bytes.now resolutions.now bindings.now budget in
        leaves result lent ≡ outcome_after needing (first_broken (fit_rules q)) q lent }
{
    if !given::resolutions_fit(image, resolutions) {
        return Err(Refusal::Given);
    }
    if !given::bindings_fit(image, bindings) {
        return Err(Refusal::Given);
    }
    need(image, resolutions, bindings, budget)
}

// What `name_dependencies` would need, with the refusals that it would give for any buffers.
pub fn dependencies_need(
    image: &[u8],
    resolutions: &[u8],
    bindings: &[u8],
    budget: u32,
) -> Result<Needed, Refusal>
    ensures { let q = question image.now resolutions.now bindings.now budget in
        leaves result lent ≡ outcome needing q lent }
{
    let image = Image::new(image)?;
    checked(image, resolutions, bindings, budget)
}
