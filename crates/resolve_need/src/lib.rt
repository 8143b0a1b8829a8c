// What a resolution needs, before it is run: its steps, and the scopes for which its working buffer has room.
#![tactic(auto)]

ghost use Rattle.std.specs.Prelude.{◌≡◌};
ghost use Rattle.lent.specs.Calls.{first_broken, leaves, outcome_after, outcome};
ghost use Rattle.resolve.specs.Outcome.{question};
ghost use Rattle.resolve_need.specs.Outcome.{lent, run_rules, needing};

use codes::refusals::Refusal;
use image::accepted::Image;
use resolve_counts::Counts;

// What a resolution needs: its steps, and the scopes that it makes, the root included.
#[derive(Clone, Copy)]
pub struct Needed {
    pub steps: u32,
    pub scopes: usize,
}

// Of a call that has no answer.
pub const NOTHING: Needed = Needed {
    steps: 0,
    scopes: 0,
};

// The call on an accepted image.
pub fn need(image: Image<'_>, budget: u32) -> Result<Needed, Refusal>
    ensures { let q = question image.entry.bytes.now budget in
        leaves result lent ≡ outcome_after needing (first_broken (run_rules q)) q lent }
{
    let Counts { steps, scopes } = resolve_counts::count_apart(image, budget as usize);
    if steps > budget as usize {
        return Err(Refusal::OverBudget);
    }
    Ok(Needed {
        steps: steps as u32,
        scopes,
    })
}

// What the resolution of an image needs.
pub fn resolution_need(image: &[u8], budget: u32) -> Result<Needed, Refusal>
    ensures { let q = question image.now budget in
        leaves result lent ≡ outcome needing q lent }
{
    let image = Image::new(image)?;
    need(image, budget)
}
