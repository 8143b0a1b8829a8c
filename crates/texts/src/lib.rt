// The one comparison of texts: lengths first, then bytes from the last to the first, since keys share long beginnings.
#![tactic(auto)]

ghost use Rattle.std.specs.Prelude.{◌≡◌, true, ◌+◌, ◌≤◌, ◌<◌, length};
ghost use Rattle.semantics.specs.Tree.{same as same_bytes};
ghost use Rattle.texts.specs.Pairs.{comparison};
ghost use Rattle.texts.specs.Inside.Ends.{Alike, Left};

// How many bytes a run has: first of a block, then of a word.
const BLOCK: usize = 64;

const WORD: usize = 8;

// Whether two texts have the same bytes, and how many pairs of bytes were looked at.
#[derive(Clone, Copy)]
pub struct Comparison {
    pub same: bool,
    pub looked: usize,
}

// Whether two texts have the same bytes in a run: all are looked at, whatever is found, so that the compiler compares 16 at once.
fn alike_run<const RUN: usize>(a: &[u8], b: &[u8], at: usize) -> bool
    requires { (at + RUN ≤ length a.now) × (at + RUN ≤ length b.now) }
    ensures { result ≡ true → Alike a.now b.now at RUN }
{
    let mut alike = true;
    for k in 0..RUN {
        if a[at + k] != b[at + k] {
            alike = false;
        }
    }
    alike
}

// How many bytes are left to compare behind which the texts are the same, where this is so of `all` of them: run by run from the end.
fn left_of_runs<const RUN: usize>(a: &[u8], b: &[u8], all: usize) -> usize
    requires lengths { (0 < RUN) × (length a.now ≡ length b.now) }
    requires behind { Left a.now b.now all }
    ensures { Left a.now b.now result }
{
    let mut left = all;
    while left >= RUN {
        if !alike_run::<RUN>(a, b, left - RUN) {
            return left;
        }
        left -= RUN;
    }
    left
}

// Two texts of one length, from the last byte to the first that differs.
#[inline(always)]
fn compare_bytes(a: &[u8], b: &[u8]) -> Comparison
    requires { length a.now ≡ length b.now }
    ensures { result ≡ comparison a.now b.now }
{
    let size = a.len();
    let blocks = left_of_runs::<BLOCK>(a, b, size);
    let words = left_of_runs::<WORD>(a, b, blocks);
    for i in (0..words).rev() {
        if a[i] != b[i] {
            return Comparison {
                same: false,
                looked: size - i,
            };
        }
    }
    Comparison {
        same: true,
        looked: size,
    }
}

// Two texts, or a text and a fixed word.
#[inline(always)]
pub fn same_text(a: &[u8], b: &[u8]) -> Comparison
    ensures { result ≡ comparison a.now b.now }
{
    if a.len() != b.len() {
        return Comparison {
            same: false,
            looked: 0,
        };
    }
    compare_bytes(a, b)
}

// The same where only the yes or no is asked for.
#[inline(always)]
pub fn same(a: &[u8], b: &[u8]) -> bool
    ensures { result ≡ same_bytes a.now b.now }
{
    let compared = same_text(a, b);
    compared.same
}
