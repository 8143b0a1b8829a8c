// Texts of an expression: a Reference's, a String literal's, and the keys of a path. A text goes by its number.
ghost use Rattle.std.specs.Prelude.{◌≡◌, ◌⊎◌, ◌<◌};
ghost use Rattle.semantics.specs.Codes.{kinds};
ghost use Rattle.semantics.specs.Tree.{expr_at, last_key, reference as reference_of, string as string_of};
ghost use Rattle.image_fields.specs.Image.{expr_count, text_count, decode};
ghost use Rattle.narrow_texts.specs.Inside.Numbers.{Finds, Spelt};
ghost use Rattle.narrow_texts.specs.Inside.Texts.{single_key};

use codes::{details, kinds, roles};
use image::accepted::Image;

// `Expr::Literal(Literal::String(text))`
pub fn string(image: Image<'_>, e: usize) -> Option<usize>
    requires { e < expr_count image.bytes.now }
    ensures { let s = image.entry.bytes.now in Finds (text_count s) (string_of (decode s) e) result }
{
    if image.kind(e) != kinds::LITERAL {
        return None;
    }
    if image.detail(e) != details::STRING {
        return None;
    }
    Some(image.expr_text(e))
}

// `Expr::Reference(text)`
pub fn reference(image: Image<'_>, e: usize) -> Option<usize>
    requires { e < expr_count image.bytes.now }
    ensures { let s = image.entry.bytes.now in Finds (text_count s) (reference_of (decode s) e) result }
{
    if image.kind(e) != kinds::REFERENCE {
        return None;
    }
    Some(image.expr_text(e))
}

// The text of the only key of a Select without default, of a HasAttr.
pub fn single_static_attrpath_key(image: Image<'_>, e: usize) -> Option<usize>
    requires { let t = decode image.bytes.now in
        (e < expr_count image.bytes.now) × (((expr_at t e).kind ≡ kinds.Select) ⊎ ((expr_at t e).kind ≡ kinds.HasAttr)) }
    ensures { let s = image.entry.bytes.now in Finds (text_count s) (single_key (decode s) e) result }
{
    if image.item_count(e) != 2 {
        return None;
    }
    if image.item_role(e, 1) != roles::PATH_KEY {
        return None;
    }
    string(image, image.item_expression(e, 1))
}

// The text of the last key of a Select without default.
pub fn last_key(image: Image<'_>, e: usize) -> Option<usize>
    requires { (e < expr_count image.bytes.now) × ((expr_at (decode image.bytes.now) e).kind ≡ kinds.Select) }
    ensures { let s = image.entry.bytes.now in Spelt s (last_key (decode s) e) result }
{
    let count = image.item_count(e);
    let last = count - 1;
    if image.item_role(e, last) != roles::PATH_KEY {
        return None;
    }
    string(image, image.item_expression(e, last))
}
