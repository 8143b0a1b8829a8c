// The calls, each with its answer as five numbers.
use codes::refusals::Refusal;

// The refusal, or 0 and the numbers that the call answers; a number that it does not answer is 0.
#[derive(Clone, Copy, PartialEq, Eq)]
pub struct Answer {
    pub refusal: u32,
    pub steps: u32,
    pub one_count: usize,
    pub other_count: usize,
    pub last_count: usize,
}

fn counted(steps: u32, one_count: usize, other_count: usize, last_count: usize) -> Answer {
    Answer {
        refusal: 0,
        steps,
        one_count,
        other_count,
        last_count,
    }
}

fn answered(steps: u32, one_count: u32, other_count: usize) -> Answer {
    counted(steps, one_count as usize, other_count, 0)
}

fn refused(refusal: Refusal) -> Answer {
    Answer {
        refusal: u32::from(refusal),
        steps: 0,
        one_count: 0,
        other_count: 0,
        last_count: 0,
    }
}

pub fn check(image: &[u8]) -> Answer {
    match image::check(image) {
        Ok(()) => answered(0, 0, 0),
        Err(refusal) => refused(refusal),
    }
}

pub fn index(image: &[u8], table: &mut [u8]) -> Answer {
    match index::compute_module_indices(image, table) {
        Ok(()) => answered(0, 0, 0),
        Err(refusal) => refused(refusal),
    }
}

pub fn resolve(image: &[u8], budget: u32, table: &mut [u8], working: &mut [u8]) -> Answer {
    match resolve::compute_name_resolution(image, budget, table, working) {
        Ok(steps) => answered(steps, 0, 0),
        Err(refusal) => refused(refusal),
    }
}

pub fn analyze(
    image: &[u8],
    resolutions: &[u8],
    bindings: &[u8],
    condition: u32,
    budget: u32,
    then_list: &mut [u8],
    else_list: &mut [u8],
) -> Answer {
    match narrow::analyze_condition(
        image,
        resolutions,
        bindings,
        condition,
        budget,
        then_list,
        else_list,
    ) {
        Ok(told) => answered(told.steps, told.thens, told.elses as usize),
        Err(refusal) => refused(refusal),
    }
}

pub fn walk(
    image: &[u8],
    resolutions: &[u8],
    bindings: &[u8],
    budget: u32,
    edges: &mut [u8],
    narrowings: &mut [u8],
    exprs: &mut [u8],
    working: &mut [u8],
) -> Answer {
    match walk::name_dependencies(
        image,
        resolutions,
        bindings,
        budget,
        edges,
        narrowings,
        exprs,
        working,
    ) {
        Ok(told) => answered(told.steps, told.edges, told.narrowings),
        Err(refusal) => refused(refusal),
    }
}

pub fn levels(image: &[u8]) -> Answer {
    match levels::compute_levels(image) {
        Ok(levels) => answered(0, levels, 0),
        Err(refusal) => refused(refusal),
    }
}

pub fn resolution_need(image: &[u8], budget: u32) -> Answer {
    match resolve_need::resolution_need(image, budget) {
        Ok(told) => counted(told.steps, told.scopes, 0, 0),
        Err(refusal) => refused(refusal),
    }
}

pub fn walk_need(image: &[u8], resolutions: &[u8], bindings: &[u8], budget: u32) -> Answer {
    match walk_need::dependencies_need(image, resolutions, bindings, budget) {
        Ok(told) => counted(told.steps, told.edges, told.narrowings, told.most),
        Err(refusal) => refused(refusal),
    }
}

// Whether two texts are the same, 1 or 0, and the pairs of bytes that were looked at.
pub fn same_text(a: &[u8], b: &[u8]) -> Answer {
    let compared = texts::same_text(a, b);
    let looked = compared.looked;
    if compared.same {
        return answered(0, 1, looked);
    }
    answered(0, 0, looked)
}
