// Runs recorded answers on the calls and compares. The harness makes the list on standard input (rust/harness, `record`)
// from what the original Rust answers and, where that has no answer, from a second reading of the description. The format
// stands in cases.rt.
#![tactic(auto)]

mod calls;
mod cases;

use cases::{CALLS, Case, HEAD, NAMES, Outcome};
use std::io::Read;
use std::{fmt, io};

// How many cases came out as recorded, and how many otherwise.
#[derive(Clone, Copy)]
struct Tally {
    same: u64,
    otherwise: u64,
}

impl Tally {
    // One more; a list has fewer than 2^32 cases, so it does not wrap.
    fn count(&mut self, same: bool) {
        if same {
            self.same = self.same.wrapping_add(1);
        } else {
            self.otherwise = self.otherwise.wrapping_add(1);
        }
    }
}

impl fmt::Display for Tally {
    fn fmt<W: fmt::Write>(&self, f: &mut fmt::Formatter<W>) -> fmt::Result {
        write!(f, "{} as recorded, {} otherwise", self.same, self.otherwise)
    }
}

// The cases of each call, and all.
#[derive(Drop)]
struct Tallies {
    calls: [Tally; CALLS],
    all: Tally,
}

impl Tallies {
    fn count(&mut self, case: &Case, same: bool) {
        self.calls[case.call as usize].count(same);
        self.all.count(same);
    }
}

// Runs and counts the next case; false where it is broken.
fn next(input: &mut impl Read, tallies: &mut Tallies) -> io::Result<bool> {
    let mut head = [0u8; HEAD];
    if reading::read_full(input, &mut head)? != HEAD {
        return Ok(false);
    }
    let Ok(case) = Case::try_from(&head) else {
        return Ok(false);
    };
    match cases::run_case(input, &case)? {
        Outcome::Same => tallies.count(&case, true),
        Outcome::Other => tallies.count(&case, false),
        Outcome::Broken => return Ok(false),
    }
    Ok(true)
}

// How many cases the list has. Of one that is cut off here there is one, which will be found broken.
fn case_count(input: &mut impl Read) -> io::Result<usize> {
    let mut head = [0u8; 4];
    if reading::read_full(input, &mut head)? != 4 {
        return Ok(1);
    }
    Ok(cases::word(&head, 0))
}

fn at_end(input: &mut impl Read) -> io::Result<bool> {
    let mut more = [0u8; 1];
    Ok(reading::read_full(input, &mut more)? == 0)
}

// Runs all cases; false where one is broken, which ends the run, or where bytes stand behind the last.
fn run(input: &mut impl Read, tallies: &mut Tallies) -> io::Result<bool> {
    for _ in 0..case_count(input)? {
        if !next(input, tallies)? {
            return Ok(false);
        }
    }
    at_end(input)
}

fn say_all(rt: &impl Print, tallies: &Tallies) -> io::Result<()> {
    for (name, tally) in NAMES.iter().zip(tallies.calls.iter()) {
        println!(rt; "{name}: {tally}")?;
    }
    println!(rt; "{}", tallies.all)
}

// A list that is broken counts as one case that came out otherwise.
fn main(rt: HostRuntime) -> io::Result<()> {
    let none = Tally {
        same: 0,
        otherwise: 0,
    };
    let mut tallies = Tallies {
        calls: [none; CALLS],
        all: none,
    };
    if !run(&mut rt.stdin(), &mut tallies)? {
        tallies.all.count(false);
    }
    say_all(&rt, &tallies)
}
