// Selections by the set that they are from and by their last key (narrow.rs): what is read off them needs the given resolutions.
ghost use Rattle.std.specs.Prelude.{◌≡◌, true, ◌<◌};
ghost use Rattle.semantics.specs.Codes.{kinds};
ghost use Rattle.semantics.specs.Tree.{expr_at};
ghost use Rattle.semantics.specs.Narrow.{chain_key, conditional_fn};
ghost use Rattle.image_fields.specs.Image.{expr_count, decode};
ghost use Rattle.given.specs.Resolutions.{resolutions_fit};
ghost use Rattle.given.specs.Inside.Resolved.{resolved};
ghost use Rattle.narrow_texts.specs.Inside.Numbers.{Spelt};
ghost use Rattle.narrow_texts.specs.Inside.Rows.{conditional_of};
ghost use Rattle.narrow_texts.specs.Inside.Chains.{spelt_builtins, builtins_ref, leaf_name};

use crate::words::ConditionalFn;
use crate::{paths, words};
use codes::{builtins, kinds};
use given::ResolveResult;
use image::accepted::Image;

// What a selection is from: the builtin set, another set of that name, or anything else.
#[derive(Clone, Copy)]
pub enum BuiltinsRef {
    Builtin,
    Another,
    Other,
}

// A Reference spelt `builtins`.
fn spelt_builtins(image: Image<'_>, e: usize) -> bool
    requires { e < expr_count image.bytes.now }
    ensures { result ≡ spelt_builtins (decode image.entry.bytes.now) e }
{
    let Some(name) = paths::reference(image, e) else {
        return false;
    };
    texts::same(image.text(name), b"builtins")
}

// `is_builtins_ref`: the one place that says whether a selection is from the builtin set. Its Reference is spelt so and resolves to it.
pub fn builtins_ref(image: Image<'_>, resolutions: &[u8], e: usize) -> BuiltinsRef
    requires { (e < expr_count image.bytes.now) × (resolutions_fit image.bytes.now resolutions.now ≡ true) }
    ensures { result ≡ builtins_ref (decode image.entry.bytes.now) (resolved resolutions.now) e }
{
    if !spelt_builtins(image, e) {
        return BuiltinsRef::Other;
    }
    match given::get(resolutions, e) {
        Some(ResolveResult::Builtin(builtins::BUILTINS)) => BuiltinsRef::Builtin,
        _ => BuiltinsRef::Another,
    }
}

// The text of the last key of a Select without default, where it counts: from another `builtins` it says nothing.
// It has a frame of its own, so that each level of a condition takes less of the stack.
#[inline(never)]
pub fn chain_key(image: Image<'_>, resolutions: &[u8], e: usize) -> Option<usize>
    requires e_bound { (e < expr_count image.bytes.now) × ((expr_at (decode image.bytes.now) e).kind ≡ kinds.Select) }
    requires resolutions_value { resolutions_fit image.bytes.now resolutions.now ≡ true }
    ensures { let s = image.entry.bytes.now in
        Spelt s (chain_key (decode s) (resolved resolutions.now) e) result }
{
    match builtins_ref(image, resolutions, image.item_expression(e, 0)) {
        BuiltinsRef::Another => None,
        BuiltinsRef::Builtin | BuiltinsRef::Other => paths::last_key(image, e),
    }
}

// The last key of a Select without default, or the text of a Reference.
fn leaf_name(image: Image<'_>, resolutions: &[u8], e: usize) -> Option<usize>
    requires { (e < expr_count image.bytes.now) × (resolutions_fit image.bytes.now resolutions.now ≡ true) }
    ensures { let s = image.entry.bytes.now in
        Spelt s (leaf_name (decode s) (resolved resolutions.now) e) result }
{
    match image.kind(e) {
        kinds::SELECT => chain_key(image, resolutions, e),
        kinds::REFERENCE => Some(image.expr_text(e)),
        _ => None,
    }
}

// Which conditional function an expression is, by the last key of a selection without default, or by a Reference's text.
pub fn detect_conditional_fn(
    image: Image<'_>,
    resolutions: &[u8],
    e: usize,
) -> Option<ConditionalFn>
    requires { (e < expr_count image.bytes.now) × (resolutions_fit image.bytes.now resolutions.now ≡ true) }
    ensures { result ≡ conditional_of (conditional_fn (decode image.entry.bytes.now) (resolved resolutions.now) e) }
{
    let name = leaf_name(image, resolutions, e)?;
    words::conditional_fn(image.text(name))
}
