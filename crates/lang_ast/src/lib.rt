// The calls as C and Rust see them (include/lang_ast.h): an answer is the refusal's number, 0 when answered.
#![tactic(auto)]

ghost use Rattle.std.specs.Prelude.{◌≡◌, cond, [], ◌∷◌, ◌%◌, ◌^◌};
ghost use Rattle.semantics.specs.Tree.{same as same_bytes};
ghost use Rattle.texts.specs.Pairs.{pairs_looked};
ghost use Rattle.lent.specs.Calls.{refusal_told, leaves, outcome, exported};
ghost use Rattle.image.specs.Refusals.{image_refusal};
ghost use Rattle.levels.specs.Outcome.{lent as levels_lent, levelling, numbers_of as levels_numbers};
ghost use Rattle.index.specs.Outcome.{indexing};
ghost use Rattle.resolve.specs.Outcome.{question as resolve_question, lent as resolve_lent, resolving, numbers_of as resolve_numbers};
ghost use Rattle.resolve_need.specs.Outcome.{lent as need_lent, needing, numbers_of as need_numbers};
ghost use Rattle.narrow.specs.Outcome.{question as narrow_question, lent as narrow_lent, analysis, numbers_of as narrow_numbers};
ghost use Rattle.walk.specs.Outcome.{question as walk_question, lent as walk_lent, walking, numbers_of as walk_numbers};
ghost use Rattle.walk_need.specs.Outcome.{lent as walk_need_lent, needing as walk_needing, numbers_of as walk_need_numbers};
ghost use Rattle.lang_ast.specs.Version.{answers_version};

use codes::refusals::Refusal;

// LANG_AST_VERSION of the header: it changes with the format of answers, so that archive, header and crate cannot be mixed unseen.
const VERSION: u32 = 3;

// The version of the answers that this archive gives.
#[unsafe(no_mangle)]
pub extern "C" fn lang_ast_version() -> u32
    ensures { result ≡ answers_version }
{
    VERSION
}

// Whether two texts have the same bytes, 1 or 0, compared from the back, and how many pairs of bytes that looked at.
#[unsafe(no_mangle)]
pub extern "C" fn lang_ast_same_text(a: &[u8], b: &[u8], looked: &mut usize) -> u32
    ensures { (result ≡ cond (same_bytes a.now b.now) 1 0) × (looked.new ≡ pairs_looked a.now b.now) }
{
    let compared = texts::same_text(a, b);
    *looked = compared.looked;
    if compared.same { 1 } else { 0 }
}

// The number of the refusal, 0 for an answer.
#[tactic(auto, unfolding(lent::specs::Calls::refusal_told))]
fn number_of<T: Copy>(answer: Result<T, Refusal>) -> u32
    ensures { result ≡ refusal_told answer }
{
    match answer {
        Ok(_) => 0,
        Err(refusal) => u32::from(refusal),
    }
}

// The number with which the image is turned back, 1 to 6, 10 or 11, or 0 where it is accepted.
#[unsafe(no_mangle)]
pub extern "C" fn lang_ast_check(image: &[u8]) -> u32
    ensures { result ≡ image_refusal image.now }
{
    number_of(image::check(image))
}

// The binding index of an image, 2 bytes a name.
#[unsafe(no_mangle)]
pub extern "C" fn lang_ast_module_indices(image: &[u8], table: &mut [u8]) -> u32
    ensures { let q = image.now in
        leaves result (table.new, []) ≡ outcome (exported indexing (λ s. [])) q (table.old, []) }
{
    number_of(index::compute_module_indices(image, table))
}

// How deep an image is: the expressions on the longest way down from its entry.
#[unsafe(no_mangle)]
pub extern "C" fn lang_ast_levels(image: &[u8], levels: &mut u32) -> u32
    ensures { let numbers = levels.old ∷ [] in
        let numbers' = levels.new ∷ [] in
        leaves result (levels_lent, numbers') ≡ outcome (exported levelling levels_numbers) image.now (levels_lent, numbers) }
{
    let answer = levels::compute_levels(image);
    let refusal = number_of(answer);
    lent::put_number(levels, refusal, answer.unwrap_or(0));
    refusal
}

// The resolution of an image, 2 bytes an expression, and the steps of the run.
#[unsafe(no_mangle)]
pub extern "C" fn lang_ast_name_resolution(
    image: &[u8],
    budget: u32,
    table: &mut [u8],
    working: &mut [u8],
    steps: &mut u32,
) -> u32
    ensures { let q = resolve_question image.now budget in
        let before = resolve_lent table.old working.old in
        let after = resolve_lent table.new working.new in
        let numbers = steps.old ∷ [] in
        let numbers' = steps.new ∷ [] in
        leaves result (after, numbers') ≡ outcome (exported resolving resolve_numbers) q (before, numbers) }
{
    let answer = resolve::compute_name_resolution(image, budget, table, working);
    let refusal = number_of(answer);
    lent::put_number(steps, refusal, answer.unwrap_or(0));
    refusal
}

// What the resolution of an image needs: its steps, and the scopes that it makes, the root included.
#[unsafe(no_mangle)]
pub extern "C" fn lang_ast_resolution_need(
    image: &[u8],
    budget: u32,
    steps: &mut u32,
    scopes: &mut usize,
) -> u32
    ensures { let q = resolve_question image.now budget in
        let numbers = steps.old ∷ scopes.old ∷ [] in
        let numbers' = steps.new ∷ scopes.new ∷ [] in
        leaves result (need_lent, numbers') ≡ outcome (exported needing need_numbers) q (need_lent, numbers) }
{
    let answer = resolve_need::resolution_need(image, budget);
    let refusal = number_of(answer);
    let needed = answer.unwrap_or(resolve_need::NOTHING);
    lent::put_number(steps, refusal, needed.steps);
    lent::put_number(scopes, refusal, needed.scopes);
    refusal
}

// The narrowings that a condition gives each branch, 4 bytes a record, with the steps of the run and how many records each list has.
#[unsafe(no_mangle)]
pub extern "C" fn lang_ast_analyze_condition(
    image: &[u8],
    resolutions: &[u8],
    bindings: &[u8],
    condition: u32,
    budget: u32,
    then_list: &mut [u8],
    else_list: &mut [u8],
    steps: &mut u32,
    then_count: &mut u32,
    else_count: &mut u32,
) -> u32
    ensures { let q = narrow_question image.now resolutions.now bindings.now condition budget in
        let before = narrow_lent then_list.old else_list.old in
        let after = narrow_lent then_list.new else_list.new in
        let numbers = steps.old ∷ then_count.old ∷ else_count.old ∷ [] in
        let numbers' = steps.new ∷ then_count.new ∷ else_count.new ∷ [] in
        leaves result (after, numbers') ≡ outcome (exported analysis narrow_numbers) q (before, numbers) }
{
    let answer = narrow::analyze_condition(
        image,
        resolutions,
        bindings,
        condition,
        budget,
        then_list,
        else_list,
    );
    let refusal = number_of(answer);
    let analyzed = answer.unwrap_or(narrow::NOTHING);
    lent::put_number(steps, refusal, analyzed.steps);
    lent::put_number(then_count, refusal, analyzed.thens);
    lent::put_number(else_count, refusal, analyzed.elses);
    refusal
}

// The low 32 bits of a count.
fn low(count: usize) -> u32
    ensures { result ≡ count % 2 ^ 32 }
{
    (count % (1 << 32)) as u32
}

// The edges, 4 bytes each, the recorded narrowings, 8 bytes each, and the name expressions, 2 bytes a name, with the steps
// of the run and how many edges and recorded narrowings there are.
#[unsafe(no_mangle)]
pub extern "C" fn lang_ast_name_dependencies(
    image: &[u8],
    resolutions: &[u8],
    bindings: &[u8],
    budget: u32,
    edges: &mut [u8],
    narrowings: &mut [u8],
    exprs: &mut [u8],
    working: &mut [u8],
    steps: &mut u32,
    edge_count: &mut u32,
    narrowing_count: &mut u32,
) -> u32
    ensures { let q = walk_question image.now resolutions.now bindings.now budget in
        let before = walk_lent edges.old narrowings.old exprs.old working.old in
        let after = walk_lent edges.new narrowings.new exprs.new working.new in
        let numbers = steps.old ∷ edge_count.old ∷ narrowing_count.old ∷ [] in
        let numbers' = steps.new ∷ edge_count.new ∷ narrowing_count.new ∷ [] in
        leaves result (after, numbers') ≡ outcome (exported walking walk_numbers) q (before, numbers) }
{
    let answer = walk::name_dependencies(
        image,
        resolutions,
        bindings,
        budget,
        edges,
        narrowings,
        exprs,
        working,
    );
    let refusal = number_of(answer);
    let walked = answer.unwrap_or(walk::NOTHING);
    lent::put_number(steps, refusal, walked.steps);
    lent::put_number(edge_count, refusal, walked.edges);
    lent::put_number(narrowing_count, refusal, low(walked.narrowings));
    refusal
}

// What the walk of an image with its tables needs: its steps, and how many edges, recorded narrowings and narrowings in force there are.
#[unsafe(no_mangle)]
pub extern "C" fn lang_ast_dependencies_need(
    image: &[u8],
    resolutions: &[u8],
    bindings: &[u8],
    budget: u32,
    steps: &mut u32,
    edges: &mut usize,
    narrowings: &mut usize,
    most: &mut usize,
) -> u32
    ensures { let q = walk_question image.now resolutions.now bindings.now budget in
        let numbers = steps.old ∷ edges.old ∷ narrowings.old ∷ most.old ∷ [] in
        let numbers' = steps.new ∷ edges.new ∷ narrowings.new ∷ most.new ∷ [] in
        leaves result (walk_need_lent, numbers') ≡ outcome (exported walk_needing walk_need_numbers) q (walk_need_lent, numbers) }
{
    let answer = walk_need::dependencies_need(image, resolutions, bindings, budget);
    let refusal = number_of(answer);
    let needed = answer.unwrap_or(walk_need::NOTHING);
    lent::put_number(steps, refusal, needed.steps);
    lent::put_number(edges, refusal, needed.edges);
    lent::put_number(narrowings, refusal, needed.narrowings);
    lent::put_number(most, refusal, needed.most);
    refusal
}
