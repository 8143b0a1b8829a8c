// Conditions (narrow.rs): what a condition tells of names, for each way that it can come out.
#![tactic(auto)]

ghost use Rattle.std.specs.Prelude.{◌≡◌, true, ◌<◌};
ghost use Rattle.image_fields.specs.Image.{expr_count};
ghost use Rattle.lent.specs.Calls.{first_broken, zeros, leaves, outcome_after, outcome};
ghost use Rattle.given.specs.Bindings.{bindings_fit};
ghost use Rattle.given.specs.Resolutions.{resolutions_fit};
ghost use Rattle.narrow.specs.Outcome.{question, lent, run_rules, fit_rules, analysis};
ghost use Rattle.narrow.specs.Inside.Ended.{Ending, Ended};

use codes::bytes;
use codes::refusals::Refusal;
use image::accepted::Image;
use narrow_run::{Progress, Takes};

// What an analysis answers: the steps of the run, and how many records each list has.
#[derive(Clone, Copy)]
pub struct Analyzed {
    pub steps: u32,
    pub thens: u32,
    pub elses: u32,
}

// Of a call that has no answer.
pub const NOTHING: Analyzed = Analyzed {
    steps: 0,
    thens: 0,
    elses: 0,
};

// A refusal that leaves both lists zero.
fn refuse(then_list: &mut [u8], else_list: &mut [u8], refusal: Refusal) -> Result<Analyzed, Refusal>
    ensures { let thens' = then_list.new in
        let elses' = else_list.new in
        let thens = then_list.old in
        let elses = else_list.old in
        (result ≡ Err refusal) × (thens' ≡ zeros thens) × (elses' ≡ zeros elses) }
{
    lent::clear(then_list);
    lent::clear(else_list);
    Err(refusal)
}

// What comes of a run that has ended, `whole` being one more than its budget: 8 before 9.
fn ended(
    whole: usize,
    left: usize,
    thens: usize,
    elses: usize,
    then_list: &mut [u8],
    else_list: &mut [u8],
) -> Result<Analyzed, Refusal>
    requires { Ending whole left thens elses }
    ensures { let then_list' = then_list.new in
        let else_list' = else_list.new in
        let then_list = then_list.old in
        let else_list = else_list.old in
        Ended whole left thens elses then_list else_list result then_list' else_list' }
{
    if left == 0 {
        return refuse(then_list, else_list, Refusal::OverBudget);
    }
    if then_list.len() < bytes::RECORD * thens {
        return refuse(then_list, else_list, Refusal::BufferTooShort);
    }
    if else_list.len() < bytes::RECORD * elses {
        return refuse(then_list, else_list, Refusal::BufferTooShort);
    }
    Ok(Analyzed {
        steps: (whole - left) as u32,
        thens: thens as u32,
        elses: elses as u32,
    })
}

// The call on an accepted image, with a condition and tables that fit: what a later call uses without checking them again.
pub fn analyze(
    image: Image<'_>,
    resolutions: &[u8],
    bindings: &[u8],
    condition: usize,
    budget: u32,
    then_list: &mut [u8],
    else_list: &mut [u8],
) -> Result<Analyzed, Refusal>
    requires condition_bound { (condition < expr_count image.bytes.now) × (resolutions_fit image.bytes.now resolutions.now ≡ true) }
    requires bindings_value { bindings_fit image.bytes.now bindings.now ≡ true }
    ensures { let q = question image.entry.bytes.now resolutions.now bindings.now condition budget in
        let before = lent then_list.old else_list.old in
        let after = lent then_list.new else_list.new in
        leaves result after ≡ outcome_after analysis (first_broken (run_rules q before)) q before }
{
    let whole = budget as usize + 1;
    // What is known to exceed the budget is answered as the run that leaves nothing, and not run.
    if !narrow_counts::affordable(image, condition, budget as usize) {
        return ended(whole, 0, 0, 0, then_list, else_list);
    }
    let mut state = Progress {
        left: whole,
        thens: 0,
        elses: 0,
    };
    narrow_run::analyze_node(
        image,
        resolutions,
        bindings,
        then_list,
        else_list,
        condition,
        Takes::ForTrue,
        Takes::ForFalse,
        &mut state,
    );
    ended(
        whole,
        state.left,
        state.thens,
        state.elses,
        then_list,
        else_list,
    )
}

// The call on an accepted image.
fn checked(
    image: Image<'_>,
    resolutions: &[u8],
    bindings: &[u8],
    condition: u32,
    budget: u32,
    then_list: &mut [u8],
    else_list: &mut [u8],
) -> Result<Analyzed, Refusal>
    ensures { let q = question image.entry.bytes.now resolutions.now bindings.now condition budget in
        let before = lent then_list.old else_list.old in
        let after = lent then_list.new else_list.new in
        leaves result after ≡ outcome_after analysis (first_broken (fit_rules q before)) q before }
{
    let c = condition as usize;
    if c >= image.expr_count() {
        return Err(Refusal::Given);
    }
    if !given::resolutions_fit(image, resolutions) {
        return Err(Refusal::Given);
    }
    if !given::bindings_fit(image, bindings) {
        return Err(Refusal::Given);
    }
    analyze(
        image,
        resolutions,
        bindings,
        c,
        budget,
        then_list,
        else_list,
    )
}

// The narrowings that a condition gives each branch.
pub fn analyze_condition(
    image: &[u8],
    resolutions: &[u8],
    bindings: &[u8],
    condition: u32,
    budget: u32,
    then_list: &mut [u8],
    else_list: &mut [u8],
) -> Result<Analyzed, Refusal>
    ensures { let q = question image.now resolutions.now bindings.now condition budget in
        let before = lent then_list.old else_list.old in
        let after = lent then_list.new else_list.new in
        leaves result after ≡ outcome analysis q before }
{
    let image = Image::new(image)?;
    checked(
        image,
        resolutions,
        bindings,
        condition,
        budget,
        then_list,
        else_list,
    )
}
