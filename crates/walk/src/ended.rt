// How a run of the walk begins and ends.
ghost use Rattle.std.specs.Prelude.{◌≡◌, cond, ◌++◌, ◌*◌, ◌<◌, ◌^◌, leb, length, drop, replicate};
ghost use Rattle.lent.specs.Inside.Stores.{pairs};
ghost use Rattle.image.specs.Refusals.{verdict_of};
ghost use Rattle.semantics.specs.Codes.{none_number, widths, bits};
ghost use Rattle.walk.specs.Outcome.{lent, cleared};
ghost use Rattle.walk.specs.Inside.Ended.{end_of, Ending, Ended};

use crate::Walked;
use codes::bytes;
use codes::refusals::Refusal;
use walk_visit::State;

// No expression for each name, where there is room for all.
pub fn clear_names(exprs: &mut [u8], names: usize)
    requires { names < 2 ^ bits.number }
    ensures { let cleared = pairs (replicate names none_number) ++ drop (widths.entry * names) exprs.old in
        exprs.new ≡ cond (leb (widths.entry * names) (length exprs.old)) cleared exprs.old }
{
    if exprs.len() < bytes::ENTRY * names {
        return;
    }
    lent::fill_none(exprs, names);
}

// What a run that has ended comes to: `OverBudget` before `BufferTooShort`.
fn end_of(
    state: &State,
    names: usize,
    edges: usize,
    narrowings: usize,
    exprs: usize,
    working: usize,
) -> Result<(), Refusal>
    requires { names < 2 ^ bits.number }
    ensures { result ≡ verdict_of (end_of state.now names edges narrowings exprs working) }
{
    if state.left == 0 {
        return Err(Refusal::OverBudget);
    }
    if edges / bytes::EDGE < state.edges {
        return Err(Refusal::BufferTooShort);
    }
    if narrowings / bytes::RECORDED < state.recorded {
        return Err(Refusal::BufferTooShort);
    }
    if exprs < bytes::ENTRY * names {
        return Err(Refusal::BufferTooShort);
    }
    if working / bytes::RECORD < state.most {
        return Err(Refusal::BufferTooShort);
    }
    Ok(())
}

// All four buffers to zero.
fn clear_all(edges: &mut [u8], narrowings: &mut [u8], exprs: &mut [u8], working: &mut [u8])
    ensures { let before = lent edges.old narrowings.old exprs.old working.old in
        lent edges.new narrowings.new exprs.new working.new ≡ cleared before }
{
    lent::clear(edges);
    lent::clear(narrowings);
    lent::clear(exprs);
    lent::clear(working);
}

// What comes of a run that is known to exceed its budget, and is not made.
pub fn exceeded(
    edges: &mut [u8],
    narrowings: &mut [u8],
    exprs: &mut [u8],
    working: &mut [u8],
) -> Result<Walked, Refusal>
    ensures { let before = lent edges.old narrowings.old exprs.old working.old in
        let after = lent edges.new narrowings.new exprs.new working.new in
        (result ≡ Err Refusal.OverBudget) × (after ≡ cleared before) }
{
    clear_all(edges, narrowings, exprs, working);
    Err(Refusal::OverBudget)
}

// What comes of a run that has ended, `whole` being one more than its budget: after a refusal all buffers are zero.
pub fn ended(
    state: &State,
    whole: usize,
    names: usize,
    edges: &mut [u8],
    narrowings: &mut [u8],
    exprs: &mut [u8],
    working: &mut [u8],
) -> Result<Walked, Refusal>
    requires { Ending state.now whole names }
    ensures { let before = lent edges.old narrowings.old exprs.old working.old in
        let after = lent edges.new narrowings.new exprs.new working.new in
        Ended state.now whole names before result after }
{
    if let Err(refusal) = end_of(
        state,
        names,
        edges.len(),
        narrowings.len(),
        exprs.len(),
        working.len(),
    ) {
        clear_all(edges, narrowings, exprs, working);
        return Err(refusal);
    }
    lent::clear(working); // after success too
    Ok(Walked {
        steps: (whole - state.left) as u32,
        edges: state.edges as u32,
        narrowings: state.recorded,
    })
}
