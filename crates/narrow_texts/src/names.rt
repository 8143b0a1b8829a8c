// What a given resolution table says of an expression: a local name, a builtin, a keyword.
ghost use Rattle.std.specs.Prelude.{◌≡◌, true, ◌+◌, ◌*◌, ◌≤◌, ◌<◌, length};
ghost use Rattle.semantics.specs.Codes.{widths};
ghost use Rattle.semantics.specs.Narrow.{local_name, global_name, literal_sort};
ghost use Rattle.image_fields.specs.Image.{expr_count, name_count, decode};
ghost use Rattle.given.specs.Resolutions.{resolution_in, resolutions_fit};
ghost use Rattle.given.specs.Inside.Resolved.{resolved};
ghost use Rattle.narrow_texts.specs.Inside.Numbers.{Finds, Spelt};
ghost use Rattle.narrow_texts.specs.Inside.Texts.{keyword_place, keyword_at, keyword_primitive, literal_primitive};
ghost use Rattle.narrow_texts.specs.Inside.Predicates.{primitive};

use crate::paths;
use crate::words::PrimitiveTy;
use codes::{builtins, details, kinds};
use given::ResolveResult;
use image::accepted::Image;

// The name that a Reference resolves to. Only a Reference has an entry, so its kind is not asked for.
pub fn expr_as_local_name(image: Image<'_>, resolutions: &[u8], e: usize) -> Option<usize>
    requires { (e < expr_count image.bytes.now) × (resolutions_fit image.bytes.now resolutions.now ≡ true) }
    ensures { let s = image.entry.bytes.now in
        Finds (name_count s) (local_name (decode s) (resolved resolutions.now) e) result }
{
    match given::get(resolutions, e)? {
        ResolveResult::Definition(name) => Some(name),
        ResolveResult::Builtin(_) | ResolveResult::WithExprs(_) => None,
    }
}

// The text of a Reference that resolves to the builtin of that text.
pub fn global_name(image: Image<'_>, resolutions: &[u8], e: usize) -> Option<usize>
    requires { (e < expr_count image.bytes.now) × (resolutions_fit image.bytes.now resolutions.now ≡ true) }
    ensures { let s = image.entry.bytes.now in
        Spelt s (global_name (decode s) (resolved resolutions.now) e) result }
{
    let name = paths::reference(image, e)?;
    let ResolveResult::Builtin(place) = given::get(resolutions, e)? else {
        return None;
    };
    resolve_builtins::is_builtin(image.text(name), place).then_some(name)
}

// The place of `null`, `true`, `false` among the global builtins.
fn keyword_place(text: &[u8]) -> Option<usize>
    ensures { keyword_place text.now ≡ result }
{
    if texts::same(text, b"null") {
        return Some(builtins::NULL);
    }
    if texts::same(text, b"true") {
        return Some(builtins::TRUE);
    }
    if texts::same(text, b"false") {
        return Some(builtins::FALSE);
    }
    None
}

// `is_keyword`: a Reference spelt as the keyword at this place is that keyword if it is unresolved, or that builtin.
fn is_keyword(resolutions: &[u8], e: usize, place: usize) -> bool
    requires { widths.entry * e + widths.entry ≤ length resolutions.now }
    ensures { result ≡ keyword_at (resolution_in resolutions.now e) place }
{
    match given::get(resolutions, e) {
        Some(ResolveResult::Builtin(found)) => found == place,
        Some(_) => false,
        None => true,
    }
}

// The type of the keyword at a place, and of a Literal by its detail.
fn keyword_primitive(place: usize) -> Option<PrimitiveTy>
    ensures { result ≡ keyword_primitive place }
{
    match place {
        builtins::NULL => Some(PrimitiveTy::Null),
        builtins::TRUE | builtins::FALSE => Some(PrimitiveTy::Bool),
        _ => None,
    }
}

fn literal_primitive(detail: usize) -> Option<PrimitiveTy>
    ensures { result ≡ literal_primitive detail }
{
    match detail {
        details::FLOAT => Some(PrimitiveTy::Float),
        details::INTEGER => Some(PrimitiveTy::Int),
        details::STRING => Some(PrimitiveTy::String),
        details::PATH => Some(PrimitiveTy::Path),
        _ => None,
    }
}

// The type of a Literal, of null, true and false.
pub fn expr_literal_primitive(image: Image<'_>, resolutions: &[u8], e: usize) -> Option<PrimitiveTy>
    requires { (e < expr_count image.bytes.now) × (resolutions_fit image.bytes.now resolutions.now ≡ true) }
    ensures { result ≡ primitive (literal_sort (decode image.entry.bytes.now) (resolved resolutions.now) e) }
{
    match image.kind(e) {
        kinds::LITERAL => literal_primitive(image.detail(e)),
        kinds::REFERENCE => {
            let place = keyword_place(image.text(image.expr_text(e)))?;
            if !is_keyword(resolutions, e, place) {
                return None;
            }
            keyword_primitive(place)
        }
        _ => None,
    }
}
