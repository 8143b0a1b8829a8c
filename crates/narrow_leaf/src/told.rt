// What one node of the analysis tells of a name (narrow.rs): the leaves of `analyze_condition`.
ghost use Rattle.std.specs.Prelude.{◌≡◌, true, ◌<◌};
ghost use Rattle.semantics.specs.Codes.{kinds};
ghost use Rattle.semantics.specs.Tree.{expr_at};
ghost use Rattle.semantics.specs.Narrow.{literal_comparison, local_name, tests, shape};
ghost use Rattle.image_fields.specs.Image.{expr_count, decode};
ghost use Rattle.given.specs.Bindings.{bindings_fit};
ghost use Rattle.given.specs.Resolutions.{resolutions_fit};
ghost use Rattle.given.specs.Given.{given};
ghost use Rattle.given.specs.Inside.Resolved.{resolved};
ghost use Rattle.narrow_leaf.specs.Inside.Told.{else_of, equal_of, unequal_of, predicate_told, literal_told, nothing_told};
ghost use Rattle.narrow_leaf.specs.Inside.Told.{turned as turned_of, comparison as comparison_of};
ghost use Rattle.narrow_leaf.specs.Inside.Told.{tested_tells, compared_told, told as told_by};

use crate::callees;
use codes::{details, kinds};
use image::accepted::Image;
use narrow_texts::words::{NarrowPredicate, PrimitiveTy};
use narrow_texts::{names, paths};

// `NarrowInfo`, of one node: a name, and what it tells of it in each branch. Both bindings of a node are of one name.
#[derive(Clone, Copy)]
pub struct NarrowInfo {
    pub name: usize,
    pub then_branch: Option<NarrowPredicate>,
    pub else_branch: Option<NarrowPredicate>,
}

fn nothing() -> NarrowInfo
    ensures { result ≡ nothing_told }
{
    NarrowInfo {
        name: 0,
        then_branch: None,
        else_branch: None,
    }
}

fn turned(info: NarrowInfo) -> NarrowInfo
    ensures { result ≡ turned_of info }
{
    let holds = info.then_branch;
    let fails = info.else_branch;
    NarrowInfo {
        name: info.name,
        then_branch: fails,
        else_branch: holds,
    }
}

// What a predicate that fails tells: of the compound ones "only the then-branch gets narrowing".
#[tactic(auto, unfolding(crate::specs::Inside::Told::else_of))]
fn else_predicate(predicate: NarrowPredicate) -> Option<NarrowPredicate>
    ensures { result ≡ else_of predicate }
{
    match predicate {
        NarrowPredicate::IsType(prim) => Some(NarrowPredicate::IsNotType(prim)),
        NarrowPredicate::HasField(key) => Some(NarrowPredicate::NotHasField(key)),
        NarrowPredicate::IsNotType(_)
        | NarrowPredicate::NotHasField(_)
        | NarrowPredicate::IsAttrSet
        | NarrowPredicate::IsList
        | NarrowPredicate::IsFunction
        | NarrowPredicate::IsNumber => None,
    }
}

// `narrow_info_for_predicate`
fn narrow_info(name: usize, predicate: NarrowPredicate) -> NarrowInfo
    ensures { result ≡ predicate_told name predicate }
{
    NarrowInfo {
        name,
        then_branch: Some(predicate),
        else_branch: else_predicate(predicate),
    }
}

// What a literal tells where a name equals it: its type, of an integer and a float that the name is a number.
#[tactic(auto, unfolding(crate::specs::Inside::Told::equal_of))]
fn equal(prim: PrimitiveTy) -> NarrowPredicate
    ensures { result ≡ equal_of prim }
{
    match prim {
        PrimitiveTy::Int | PrimitiveTy::Float => NarrowPredicate::IsNumber,
        PrimitiveTy::Null | PrimitiveTy::Bool | PrimitiveTy::String | PrimitiveTy::Path => {
            NarrowPredicate::IsType(prim)
        }
    }
}

// `is_singleton`: only null tells where a name and a literal are unequal.
#[tactic(auto, unfolding(crate::specs::Inside::Told::unequal_of))]
fn unequal(prim: PrimitiveTy) -> Option<NarrowPredicate>
    ensures { result ≡ unequal_of prim }
{
    match prim {
        PrimitiveTy::Null => Some(NarrowPredicate::IsNotType(PrimitiveTy::Null)),
        PrimitiveTy::Bool
        | PrimitiveTy::Int
        | PrimitiveTy::Float
        | PrimitiveTy::String
        | PrimitiveTy::Path => None,
    }
}

// Of a name that was compared with a literal of a type.
fn literal_info(name: usize, prim: PrimitiveTy) -> NarrowInfo
    ensures { result ≡ literal_told name prim }
{
    NarrowInfo {
        name,
        then_branch: Some(equal(prim)),
        else_branch: unequal(prim),
    }
}

// The name on the one side, the literal on the other.
fn try_literal_comparison(
    image: Image<'_>,
    resolutions: &[u8],
    x: usize,
    y: usize,
) -> Option<(PrimitiveTy, usize)>
    requires { (x < expr_count image.bytes.now) × (y < expr_count image.bytes.now) × (resolutions_fit image.bytes.now resolutions.now ≡ true) }
    ensures { result ≡ comparison_of (literal_comparison (decode image.entry.bytes.now) (resolved resolutions.now) x y) }
{
    let prim = names::expr_literal_primitive(image, resolutions, y)?;
    let name = names::expr_as_local_name(image, resolutions, x)?;
    Some((prim, name))
}

// Both orientations.
fn compared(image: Image<'_>, resolutions: &[u8], l: usize, r: usize) -> NarrowInfo
    requires { (l < expr_count image.bytes.now) × (r < expr_count image.bytes.now) × (resolutions_fit image.bytes.now resolutions.now ≡ true) }
    ensures { result ≡ compared_told (decode image.entry.bytes.now) (resolved resolutions.now) l r }
{
    if let Some((prim, name)) = try_literal_comparison(image, resolutions, l, r) {
        return literal_info(name, prim);
    }
    match try_literal_comparison(image, resolutions, r, l) {
        Some((prim, name)) => literal_info(name, prim),
        None => nothing(),
    }
}

// A BinOp: Equal, NotEqual.
fn comparison(image: Image<'_>, resolutions: &[u8], c: usize) -> NarrowInfo
    requires c_bound { (c < expr_count image.bytes.now) × (resolutions_fit image.bytes.now resolutions.now ≡ true) }
    requires c_value { (expr_at (decode image.bytes.now) c).kind ≡ kinds.BinOp }
    ensures { let t = decode image.entry.bytes.now in
        result ≡ told_by t (resolved resolutions.now) (shape t c) }
{
    let left = image.item_expression(c, 0);
    let right = image.item_expression(c, 1);
    match image.detail(c) {
        details::EQUAL => compared(image, resolutions, left, right),
        details::NOT_EQUAL => turned(compared(image, resolutions, left, right)),
        _ => nothing(),
    }
}

// A HasAttr.
fn asked(image: Image<'_>, resolutions: &[u8], c: usize) -> NarrowInfo
    requires c_bound { (c < expr_count image.bytes.now) × (resolutions_fit image.bytes.now resolutions.now ≡ true) }
    requires c_value { (expr_at (decode image.bytes.now) c).kind ≡ kinds.HasAttr }
    ensures { let t = decode image.entry.bytes.now in
        result ≡ told_by t (resolved resolutions.now) (shape t c) }
{
    let Some(key) = paths::single_static_attrpath_key(image, c) else {
        return nothing();
    };
    let set = image.item_expression(c, 0);
    let Some(name) = names::expr_as_local_name(image, resolutions, set) else {
        return nothing();
    };
    narrow_info(name, NarrowPredicate::HasField(key))
}

// An Apply.
fn called(image: Image<'_>, resolutions: &[u8], bindings: &[u8], f: usize, a: usize) -> NarrowInfo
    requires f_bound { (f < expr_count image.bytes.now) × (a < expr_count image.bytes.now) × (resolutions_fit image.bytes.now resolutions.now ≡ true) }
    requires bindings_value { bindings_fit image.bytes.now bindings.now ≡ true }
    ensures { let tables = given resolutions.now bindings.now in
        let t = decode image.entry.bytes.now in
        result ≡ tested_tells (local_name t tables a) (tests t tables f) }
{
    let Some(name) = names::expr_as_local_name(image, resolutions, a) else {
        return nothing();
    };
    let Some(predicate) = callees::tests(image, resolutions, bindings, f) else {
        return nothing();
    };
    narrow_info(name, predicate)
}

// What a node tells that has no parts that are analysed.
pub fn told(image: Image<'_>, resolutions: &[u8], bindings: &[u8], c: usize) -> NarrowInfo
    requires c_bound { (c < expr_count image.bytes.now) × (resolutions_fit image.bytes.now resolutions.now ≡ true) }
    requires bindings_value { bindings_fit image.bytes.now bindings.now ≡ true }
    ensures { let tables = given resolutions.now bindings.now in
        let t = decode image.entry.bytes.now in
        result ≡ told_by t tables (shape t c) }
{
    match image.kind(c) {
        kinds::BIN_OP => comparison(image, resolutions, c),
        kinds::HAS_ATTR => asked(image, resolutions, c),
        kinds::APPLY => {
            let f = image.item_expression(c, 0);
            let a = image.item_expression(c, 1);
            called(image, resolutions, bindings, f, a)
        }
        _ => nothing(),
    }
}
