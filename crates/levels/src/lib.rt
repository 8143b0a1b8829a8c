// How deep an image is: the longest way down from its entry.
#![tactic(auto)]

ghost use Rattle.std.specs.Prelude.{◌≡◌, true, map, ◌≤◌, ◌<◌, length};
ghost use Rattle.semantics.specs.Base.{most};
ghost use Rattle.semantics.specs.Scopes.{children};
ghost use Rattle.image_fields.specs.Image.{expr_count, decode};
ghost use Rattle.lent.specs.Calls.{leaves, outcome};
ghost use Rattle.levels.specs.Depth.{levels_from, levels_of};
ghost use Rattle.levels.specs.Outcome.{lent, levelling};
ghost use Rattle.levels.specs.Inside.Known.{Known};

use codes::NONE;
use codes::refusals::Refusal;
use image::accepted::Image;

// Room for so many expressions.
const FEW: usize = 64;

const SOME: usize = 1024;

const MANY: usize = 16384;

// The most levels below an expression, of all that its items name.
fn deepest(image: Image<'_>, levels: &[u16], e: usize) -> usize
    requires e_bound { e < expr_count image.bytes.now }
    requires known { Known (decode image.bytes.now) e levels.now }
    ensures { let t = decode image.entry.bytes.now in result ≡ most (map (levels_from t) (children t e (λ i. true))) }
{
    let count = image.item_count(e);
    let mut best: usize = 0;
    for k in 0..count {
        let child = image.item_expression(e, k);
        if child != NONE {
            let below = usize::from(levels[child]);
            best = best.max(below);
        }
    }
    best
}

// The levels of the entry, with room for all expressions up to it. Numbers fall on the way down, so each is known when it is asked for.
fn levels_in(image: Image<'_>, levels: &mut [u16]) -> usize
    requires { expr_count image.bytes.now ≤ length levels.old }
    ensures { result ≡ levels_of (decode image.entry.bytes.now) }
{
    let entry = image.entry();
    for e in 0..entry {
        levels[e] = (1 + deepest(image, levels, e)) as u16;
    }
    1 + deepest(image, levels, entry)
}

// The same with room of its own for so many expressions.
// Each room has a frame of its own, so that the stack has the room that is used and no other.
#[inline(never)]
fn levels_within<const ROOM: usize>(image: Image<'_>) -> usize
    requires image_bound { expr_count image.bytes.now ≤ ROOM }
    requires room_bound { ROOM ≤ 16384 }
    ensures { result ≡ levels_of (decode image.entry.bytes.now) }
{
    let mut levels = [0u16; ROOM];
    levels_in(image, &mut levels)
}

// The levels of an accepted image.
pub fn levels_of(image: Image<'_>) -> u32
    ensures { result ≡ levels_of (decode image.entry.bytes.now) }
{
    let exprs = image.expr_count();
    if exprs <= FEW {
        return levels_within::<FEW>(image) as u32;
    }
    if exprs <= SOME {
        return levels_within::<SOME>(image) as u32;
    }
    levels_within::<MANY>(image) as u32
}

// The levels of an image.
pub fn compute_levels(image: &[u8]) -> Result<u32, Refusal>
    ensures { leaves result lent ≡ outcome levelling image.now lent }
{
    let image = Image::new(image)?;
    Ok(levels_of(image))
}
