// The analysis of one condition many times below one check, for the harness alone: so that its time is not that of the checks.
#![tactic(auto)]

ghost use Rattle.std.specs.Prelude.{◌≡◌};
ghost use Rattle.lent.specs.Calls.{refusal_of, outcome};
ghost use Rattle.narrow.specs.Outcome.{question, lent, analysis};
ghost use Rattle.narrow_timing.specs.Inside.Standing.{Standing};

use image::accepted::Image;
use narrow_run::{Progress, Takes};

// The analysis again, as a call that has done the checks uses it, over lists that hold its records: it leaves them as they are.
fn repeat(
    image: Image<'_>,
    resolutions: &[u8],
    bindings: &[u8],
    condition: usize,
    budget: u32,
    times: u32,
    then_list: &mut [u8],
    else_list: &mut [u8],
)
    requires { let q = question image.bytes.now resolutions.now bindings.now condition budget in
        Standing q (lent then_list.old else_list.old) }
    ensures { (then_list.new ≡ then_list.old) × (else_list.new ≡ else_list.old) }
{
    let whole = budget as usize + 1;
    for _ in 0..times {
        let mut state = Progress {
            left: whole,
            thens: 0,
            elses: 0,
        };
        narrow_run::analyze_node(
            image,
            resolutions,
            bindings,
            then_list,
            else_list,
            condition,
            Takes::ForTrue,
            Takes::ForFalse,
            &mut state,
        );
    }
}

// `analyze_condition`, and where it answers, the analysis `times` times more: the answer and the lists are those of one call.
#[unsafe(no_mangle)]
pub extern "C" fn lang_ast_timing_analyze(
    image: &[u8],
    resolutions: &[u8],
    bindings: &[u8],
    condition: u32,
    budget: u32,
    times: u32,
    then_list: &mut [u8],
    else_list: &mut [u8],
) -> u32
    ensures { let q = question image.now resolutions.now bindings.now condition budget in
        let before = lent then_list.old else_list.old in
        let after = lent then_list.new else_list.new in
        (result ≡ refusal_of analysis q before) × (after ≡ (outcome analysis q before).lent) }
{
    match narrow::analyze_condition(
        image,
        resolutions,
        bindings,
        condition,
        budget,
        then_list,
        else_list,
    ) {
        Ok(_) => {
            repeat(
                Image { bytes: image },
                resolutions,
                bindings,
                condition as usize,
                budget,
                times,
                then_list,
                else_list,
            );
            0
        }
        Err(refusal) => u32::from(refusal),
    }
}
