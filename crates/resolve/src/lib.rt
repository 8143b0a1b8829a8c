// Name resolution (nameres.rs, first half): the call.
#![tactic(auto)]

ghost use Rattle.std.specs.Prelude.{◌≡◌, ◌^◌, ◌≤◌, ◌<◌};
ghost use Rattle.lent.specs.Calls.{first_broken, leaves, outcome_after, outcome};
ghost use Rattle.image.specs.Refusals.{verdict_of};
ghost use Rattle.resolve.specs.Outcome.{question, lent, run_rules, resolving};
ghost use Rattle.resolve.specs.Inside.Ended.{end_of};

use codes::bytes;
use codes::refusals::Refusal;
use image::accepted::Image;
use resolve_counts::Counts;

// What a run of so many steps and scopes ends with: `OverBudget` before `BufferTooShort`.
#[tactic(auto, unfolding(crate::specs::Inside::Ended::end_of, image::specs::Refusals::verdict_of, codes::specs::Refusals::refusal_numbered))]
fn end_of(
    steps: usize,
    budget: usize,
    exprs: usize,
    scopes: usize,
    table: usize,
    working: usize,
) -> Result<(), Refusal>
    requires exprs_bound { exprs < 2 ^ 14 }
    requires scopes_bound { steps ≤ budget → scopes < 2 ^ 33 }
    ensures { result ≡ verdict_of (end_of steps budget exprs scopes table working) }
{
    if steps > budget {
        return Err(Refusal::OverBudget);
    }
    if table < bytes::ENTRY * exprs {
        return Err(Refusal::BufferTooShort);
    }
    if working < bytes::SCOPE_NUMBER * exprs + bytes::SCOPE * scopes {
        return Err(Refusal::BufferTooShort);
    }
    Ok(())
}

// The call on an accepted image.
pub fn resolve_names(
    image: Image<'_>,
    budget: u32,
    table: &mut [u8],
    working: &mut [u8],
) -> Result<u32, Refusal>
    ensures { let q = question image.entry.bytes.now budget in
        let before = lent table.old working.old in
        let after = lent table.new working.new in
        leaves result after ≡ outcome_after resolving (first_broken (run_rules q before)) q before }
{
    let Counts { steps, scopes } = resolve_counts::count_apart(image, budget as usize);
    let exprs = image.expr_count();
    if let Err(refusal) = end_of(
        steps,
        budget as usize,
        exprs,
        scopes,
        table.len(),
        working.len(),
    ) {
        lent::clear(table);
        lent::clear(working);
        return Err(refusal);
    }
    lent::clear_first(table, bytes::ENTRY * exprs);
    let events = resolve_events::trace(image, table, working);
    resolve_settle::settle(image, table, working, events);
    lent::clear(working); // after success too
    Ok(steps as u32)
}

// What each Reference of an image refers to, 2 bytes an expression.
pub fn compute_name_resolution(
    image: &[u8],
    budget: u32,
    table: &mut [u8],
    working: &mut [u8],
) -> Result<u32, Refusal>
    ensures { let q = question image.now budget in
        let before = lent table.old working.old in
        let after = lent table.new working.new in
        leaves result after ≡ outcome resolving q before }
{
    let image = Image::new(image)?;
    resolve_names(image, budget, table, working)
}
