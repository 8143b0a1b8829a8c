// The cases of the list: their numbers, the call that each makes, and what it is compared with.
//
// The list is the number of its cases and the cases, one behind the other. A number has 4 bytes, the most significant first.
// A case is 15 numbers, in the order of `Case`; the bytes of the image, of the resolutions and of the bindings; and all bytes
// that each of the four lent buffers holds after the call. Before it each is filled with `UNTOUCHED`. What a call is not given or lent
// has no bytes, and a number that it is not given or does not answer is 0. The two texts of `same_text` stand where other calls have image
// and resolutions, and its answer, 1 or 0, and the pairs that it looked at are the first two counts.
ghost use Rattle.std.specs.Prelude.{◌≡◌, ◌+◌, ◌^◌, ◌<◌, ◌≤◌, length};

use crate::calls;
use crate::calls::Answer;
use std::io;
use std::io::Read;

// The calls, in the order of their numbers.
#[derive(Clone, Copy)]
pub enum Call {
    Check,
    Index,
    Resolve,
    Analyze,
    Walk,
    Levels,
    ResolutionNeed,
    WalkNeed,
    SameText,
}

pub const CALLS: usize = 9;

// How each is named where its cases are counted.
pub const NAMES: [&str; CALLS] = [
    "check",
    "compute_module_indices",
    "compute_name_resolution",
    "analyze_condition",
    "name_dependencies",
    "compute_levels",
    "resolution_need",
    "dependencies_need",
    "same_text",
];

impl TryFrom<u32> for Call {
    type Error = ();

    fn try_from(number: u32) -> Result<Call, ()> {
        match number {
            0 => Ok(Call::Check),
            1 => Ok(Call::Index),
            2 => Ok(Call::Resolve),
            3 => Ok(Call::Analyze),
            4 => Ok(Call::Walk),
            5 => Ok(Call::Levels),
            6 => Ok(Call::ResolutionNeed),
            7 => Ok(Call::WalkNeed),
            8 => Ok(Call::SameText),
            _ => Err(()),
        }
    }
}

// How many bytes the numbers of a case have, and a part of it has at most.
pub const HEAD: usize = 60;

const LONGEST: usize = 65536;

// How many bytes a part of a case has: not too many.
#[derive(Clone, Copy)]
struct Size {
    bytes: usize,
    ghost fits: { bytes ≤ 65536 },
}

impl TryFrom<u32> for Size {
    type Error = ();

    fn try_from(number: u32) -> Result<Size, ()> {
        let bytes = number as usize;
        if bytes > LONGEST {
            return Err(());
        }
        Ok(Size { bytes })
    }
}

// The numbers of a case: the call, how many bytes are given, how many are lent, in the order of the call's parameters, and the
// recorded answer.
#[derive(Clone, Copy)]
pub struct Case {
    pub call: Call,
    condition: u32,
    budget: u32,
    image: Size,
    resolutions: Size,
    bindings: Size,
    first: Size,
    second: Size,
    third: Size,
    fourth: Size,
    recorded: Answer,
}

impl TryFrom<&[u8; HEAD]> for Case {
    type Error = ();

    fn try_from(head: &[u8; HEAD]) -> Result<Case, ()> {
        Ok(Case {
            call: Call::try_from(number(head, 0))?,
            condition: number(head, 1),
            budget: number(head, 2),
            image: Size::try_from(number(head, 3))?,
            resolutions: Size::try_from(number(head, 4))?,
            bindings: Size::try_from(number(head, 5))?,
            first: Size::try_from(number(head, 6))?,
            second: Size::try_from(number(head, 7))?,
            third: Size::try_from(number(head, 8))?,
            fourth: Size::try_from(number(head, 9))?,
            recorded: Answer {
                refusal: number(head, 10),
                steps: number(head, 11),
                one_count: number(head, 12) as usize,
                other_count: number(head, 13) as usize,
                last_count: number(head, 14) as usize,
            },
        })
    }
}

// What a lent byte is before the call: one that the call does not touch is seen to be untouched.
const UNTOUCHED: u8 = 165;

// What comes of a case.
#[derive(Clone, Copy)]
pub enum Outcome {
    Same,
    Other,
    // It is cut off, or too long.
    Broken,
}

// The number that the four bytes from `at` on write.
pub fn word(bytes: &[u8], at: usize) -> usize
    requires { at + 4 ≤ length bytes.now }
    ensures { result < 2 ^ 32 }
{
    image_fields::four(bytes, at)
}

// A number of a case.
fn number(head: &[u8; HEAD], which: usize) -> u32
    requires { which < 15 }
{
    word(head, 4 * which) as u32
}

fn compared(case: &Case, answer: Answer) -> Outcome {
    if answer == case.recorded {
        return Outcome::Same;
    }
    Outcome::Other
}

fn filled() -> [u8; LONGEST]
    ensures { 65536 ≡ length result }
{
    [UNTOUCHED; LONGEST]
}

// Reads the first n bytes of a part; false where the list has fewer.
fn read(input: &mut impl Read, part: &mut [u8], n: usize) -> io::Result<bool>
    requires { n ≤ length part.old }
{
    Ok(reading::read_full(input, &mut part[0..n])? == n)
}

// What comes of a case of which so much is known, where the bytes of a lent buffer are held against what is recorded of them.
fn kept(
    input: &mut impl Read,
    lent: &[u8; LONGEST],
    size: Size,
    known: Outcome,
) -> io::Result<Outcome> {
    let mut recorded = reading::buffer();
    let n = size.bytes;
    if !read(input, &mut recorded, n)? {
        return Ok(Outcome::Broken);
    }
    if texts::same(&lent[0..n], &recorded[0..n]) {
        return Ok(known);
    }
    Ok(Outcome::Other)
}

fn check(case: &Case, image: &[u8]) -> Outcome {
    compared(case, calls::check(image))
}

fn index(input: &mut impl Read, case: &Case, image: &[u8]) -> io::Result<Outcome> {
    let mut table = filled();
    let a = case.first.bytes;
    let answered = calls::index(image, &mut table[0..a]);
    kept(input, &table, case.first, compared(case, answered))
}

fn resolve(input: &mut impl Read, case: &Case, image: &[u8]) -> io::Result<Outcome> {
    let mut table = filled();
    let mut working = filled();
    let a = case.first.bytes;
    let b = case.second.bytes;
    let budget = case.budget;
    let answered = calls::resolve(image, budget, &mut table[0..a], &mut working[0..b]);
    let first = kept(input, &table, case.first, compared(case, answered))?;
    kept(input, &working, case.second, first)
}

fn analyze(
    input: &mut impl Read,
    case: &Case,
    image: &[u8],
    resolutions: &[u8],
    bindings: &[u8],
) -> io::Result<Outcome> {
    let mut then_list = filled();
    let mut else_list = filled();
    let a = case.first.bytes;
    let b = case.second.bytes;
    let answered = calls::analyze(
        image,
        resolutions,
        bindings,
        case.condition,
        case.budget,
        &mut then_list[0..a],
        &mut else_list[0..b],
    );
    let first = kept(input, &then_list, case.first, compared(case, answered))?;
    kept(input, &else_list, case.second, first)
}

fn walk(
    input: &mut impl Read,
    case: &Case,
    image: &[u8],
    resolutions: &[u8],
    bindings: &[u8],
) -> io::Result<Outcome> {
    let mut edges = filled();
    let mut narrowings = filled();
    let mut exprs = filled();
    let mut working = filled();
    let answered = calls::walk(
        image,
        resolutions,
        bindings,
        case.budget,
        &mut edges[0..case.first.bytes],
        &mut narrowings[0..case.second.bytes],
        &mut exprs[0..case.third.bytes],
        &mut working[0..case.fourth.bytes],
    );
    walked(
        input,
        case,
        &edges,
        &narrowings,
        &exprs,
        &working,
        compared(case, answered),
    )
}

fn walked(
    input: &mut impl Read,
    case: &Case,
    edges: &[u8; LONGEST],
    narrowings: &[u8; LONGEST],
    exprs: &[u8; LONGEST],
    working: &[u8; LONGEST],
    known: Outcome,
) -> io::Result<Outcome> {
    let first = kept(input, edges, case.first, known)?;
    let second = kept(input, narrowings, case.second, first)?;
    let third = kept(input, exprs, case.third, second)?;
    kept(input, working, case.fourth, third)
}

fn levels(case: &Case, image: &[u8]) -> Outcome {
    compared(case, calls::levels(image))
}

fn resolution_need(case: &Case, image: &[u8]) -> Outcome {
    compared(case, calls::resolution_need(image, case.budget))
}

fn walk_need(case: &Case, image: &[u8], resolutions: &[u8], bindings: &[u8]) -> Outcome {
    let budget = case.budget;
    compared(case, calls::walk_need(image, resolutions, bindings, budget))
}

// A case of a call that is given tables, which are read.
fn tabled(
    input: &mut impl Read,
    case: &Case,
    image: &[u8],
    resolutions: &[u8],
    bindings: &[u8],
) -> io::Result<Outcome> {
    match case.call {
        Call::Analyze => analyze(input, case, image, resolutions, bindings),
        Call::Walk => walk(input, case, image, resolutions, bindings),
        _ => Ok(walk_need(case, image, resolutions, bindings)),
    }
}

fn with_tables(input: &mut impl Read, case: &Case, image: &[u8]) -> io::Result<Outcome> {
    let mut resolutions = reading::buffer();
    let mut bindings = reading::buffer();
    let r = case.resolutions.bytes;
    let b = case.bindings.bytes;
    if !read(input, &mut resolutions, r)? {
        return Ok(Outcome::Broken);
    }
    if !read(input, &mut bindings, b)? {
        return Ok(Outcome::Broken);
    }
    tabled(input, case, image, &resolutions[0..r], &bindings[0..b])
}

fn same_text(input: &mut impl Read, case: &Case, text: &[u8]) -> io::Result<Outcome> {
    let mut other = reading::buffer();
    let n = case.resolutions.bytes;
    if !read(input, &mut other, n)? {
        return Ok(Outcome::Broken);
    }
    Ok(compared(case, calls::same_text(text, &other[0..n])))
}

fn called(input: &mut impl Read, case: &Case, image: &[u8]) -> io::Result<Outcome> {
    match case.call {
        Call::Check => Ok(check(case, image)),
        Call::Index => index(input, case, image),
        Call::Resolve => resolve(input, case, image),
        Call::Levels => Ok(levels(case, image)),
        Call::ResolutionNeed => Ok(resolution_need(case, image)),
        Call::SameText => same_text(input, case, image),
        _ => with_tables(input, case, image),
    }
}

// Reads what a case has behind its numbers, makes its call and compares.
pub fn run_case(input: &mut impl Read, case: &Case) -> io::Result<Outcome> {
    let mut image = reading::buffer();
    let n = case.image.bytes;
    if !read(input, &mut image, n)? {
        return Ok(Outcome::Broken);
    }
    called(input, case, &image[0..n])
}
