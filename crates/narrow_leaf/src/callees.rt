// What a function is, by the callee lookup and by its last key (narrow.rs).
ghost use Rattle.std.specs.Prelude.{◌≡◌, true, ◌<◌};
ghost use Rattle.semantics.specs.Narrow.{builtins_key, callee_in, has_attr_call, tests as tests_of};
ghost use Rattle.image_fields.specs.Image.{expr_count, text_count, decode};
ghost use Rattle.given.specs.Bindings.{bindings_fit};
ghost use Rattle.given.specs.Resolutions.{resolutions_fit};
ghost use Rattle.given.specs.Given.{given};
ghost use Rattle.given.specs.Inside.Resolved.{resolved};
ghost use Rattle.narrow_texts.specs.Inside.Numbers.{Finds, Spelt};
ghost use Rattle.narrow_texts.specs.Inside.Predicates.{saying};
ghost use Rattle.narrow_leaf.specs.Inside.Callees.{direct_name, bound_expr, spelt_like, predicate_name};

use codes::kinds;
use image::accepted::Image;
use narrow_texts::chains::BuiltinsRef;
use narrow_texts::words::NarrowPredicate;
use narrow_texts::{chains, names, paths, words};

// Depths 0 to 3 are read (`MAX_ALIAS_TRACE_DEPTH`).
const ALIAS_DEPTHS: usize = 4;

// The key of a selection of one key, without default, from the builtin set.
fn builtins_key(image: Image<'_>, resolutions: &[u8], e: usize) -> Option<usize>
    requires { (e < expr_count image.bytes.now) × (resolutions_fit image.bytes.now resolutions.now ≡ true) }
    ensures { let s = image.entry.bytes.now in
        Spelt s (builtins_key (decode s) (resolved resolutions.now) e) result }
{
    if image.kind(e) != kinds::SELECT {
        return None;
    }
    match chains::builtins_ref(image, resolutions, image.item_expression(e, 0)) {
        BuiltinsRef::Builtin => paths::single_static_attrpath_key(image, e),
        BuiltinsRef::Another | BuiltinsRef::Other => None,
    }
}

// The builtin that an expression names without an alias.
fn direct_name(image: Image<'_>, resolutions: &[u8], e: usize) -> Option<usize>
    requires { (e < expr_count image.bytes.now) × (resolutions_fit image.bytes.now resolutions.now ≡ true) }
    ensures { let s = image.entry.bytes.now in
        Spelt s (direct_name (decode s) (resolved resolutions.now) e) result }
{
    match names::global_name(image, resolutions, e) {
        Some(name) => Some(name),
        None => builtins_key(image, resolutions, e),
    }
}

// The expression that the name of a Reference is bound to.
fn bound_expr(image: Image<'_>, resolutions: &[u8], bindings: &[u8], e: usize) -> Option<usize>
    requires e_bound { (e < expr_count image.bytes.now) × (resolutions_fit image.bytes.now resolutions.now ≡ true) }
    requires bindings_value { bindings_fit image.bytes.now bindings.now ≡ true }
    ensures { let tables = given resolutions.now bindings.now in
        let t = decode image.entry.bytes.now in
        let image = image.entry.bytes.now in
        Finds (expr_count image) (bound_expr t tables e) result }
{
    let name = names::expr_as_local_name(image, resolutions, e)?;
    given::binding_expr(bindings, name)
}

// Whether a Reference is spelt like text x.
fn spelt_like(image: Image<'_>, x: usize, e: usize) -> bool
    requires { (e < expr_count image.bytes.now) × (x < text_count image.bytes.now) }
    ensures { result ≡ spelt_like (decode image.entry.bytes.now) x e }
{
    let Some(name) = paths::reference(image, e) else {
        return false;
    };
    texts::same(image.text(x), image.text(name))
}

// The builtin that an expression names, through aliases spelt as it is, with so many depths left.
fn builtin_callee_name(
    image: Image<'_>,
    resolutions: &[u8],
    bindings: &[u8],
    e: usize,
    depths: usize,
) -> Option<usize>
    requires e_bound { (e < expr_count image.bytes.now) × (resolutions_fit image.bytes.now resolutions.now ≡ true) }
    requires bindings_value { bindings_fit image.bytes.now bindings.now ≡ true }
    ensures { let tables = given resolutions.now bindings.now in
        let t = decode image.entry.bytes.now in
        let image = image.entry.bytes.now in
        Spelt image (callee_in t tables depths e) result }
{
    if depths == 0 {
        return None;
    }
    if let Some(name) = direct_name(image, resolutions, e) {
        return Some(name);
    }
    let bound = bound_expr(image, resolutions, bindings, e)?;
    let traced = builtin_callee_name(image, resolutions, bindings, bound, depths - 1)?;
    spelt_like(image, traced, e).then_some(traced)
}

// The key's text of `hasAttr "key"`.
fn try_hasattr_builtin_call(
    image: Image<'_>,
    resolutions: &[u8],
    bindings: &[u8],
    f: usize,
) -> Option<usize>
    requires f_bound { (f < expr_count image.bytes.now) × (resolutions_fit image.bytes.now resolutions.now ≡ true) }
    requires bindings_value { bindings_fit image.bytes.now bindings.now ≡ true }
    ensures { let tables = given resolutions.now bindings.now in
        let t = decode image.entry.bytes.now in
        let image = image.entry.bytes.now in
        Finds (text_count image) (has_attr_call t tables f) result }
{
    if image.kind(f) != kinds::APPLY {
        return None;
    }
    let callee = image.item_expression(f, 0);
    let name = builtin_callee_name(image, resolutions, bindings, callee, ALIAS_DEPTHS)?;
    if !texts::same(image.text(name), b"hasAttr") {
        return None;
    }
    paths::string(image, image.item_expression(f, 1))
}

// The name by which a function may be a predicate: of a Reference what the callee lookup finds, else the last key. A key of the builtin
// set is the last key too, so a selection needs no callee lookup.
fn predicate_name(image: Image<'_>, resolutions: &[u8], bindings: &[u8], f: usize) -> Option<usize>
    requires f_bound { (f < expr_count image.bytes.now) × (resolutions_fit image.bytes.now resolutions.now ≡ true) }
    requires bindings_value { bindings_fit image.bytes.now bindings.now ≡ true }
    ensures { let tables = given resolutions.now bindings.now in
        let t = decode image.entry.bytes.now in
        let image = image.entry.bytes.now in
        Spelt image (predicate_name t tables f) result }
{
    match image.kind(f) {
        kinds::REFERENCE => builtin_callee_name(image, resolutions, bindings, f, ALIAS_DEPTHS),
        kinds::SELECT => chains::chain_key(image, resolutions, f),
        _ => None,
    }
}

// What a function tells of an argument that passes its test.
pub fn tests(
    image: Image<'_>,
    resolutions: &[u8],
    bindings: &[u8],
    f: usize,
) -> Option<NarrowPredicate>
    requires f_bound { (f < expr_count image.bytes.now) × (resolutions_fit image.bytes.now resolutions.now ≡ true) }
    requires bindings_value { bindings_fit image.bytes.now bindings.now ≡ true }
    ensures { result ≡ saying true (tests_of (decode image.entry.bytes.now) (given resolutions.now bindings.now) f) }
{
    if let Some(x) = predicate_name(image, resolutions, bindings, f) {
        return words::predicate_named(image.text(x));
    }
    try_hasattr_builtin_call(image, resolutions, bindings, f).map(NarrowPredicate::HasField)
}
