// The definitions of a scope (nameres.rs): `defs` of `ScopeKind::Definitions`, and whether an expression makes a scope.
#![tactic(auto)]

ghost use Rattle.std.specs.Prelude.{◌≡◌, not, ◌<◌};
ghost use Rattle.semantics.specs.Base.{empty};
ghost use Rattle.semantics.specs.Scopes.{defines, defined, makes};
ghost use Rattle.image_fields.specs.Image.{expr_count, item_here, decode};
ghost use Rattle.resolve_defs.specs.Inside.Items.{AnItem};

use codes::{NONE, bytes, kinds, name_kinds, roles};
use image::accepted::Image;

// Whether the item at byte `at` defines a name.
pub fn defines_item(image: Image<'_>, at: usize) -> bool
    requires { AnItem image.bytes.now at }
    ensures { let s = image.entry.bytes.now in result ≡ defines (decode s) (item_here s at) }
{
    let role = image.role_at(at);
    if role == roles::PARAMETER {
        return true;
    }
    let name = image.name_at(at);
    if role == roles::PATTERN_FIELD {
        return name != NONE;
    }
    if role < roles::STATIC_EXPR {
        return false;
    }
    if role > roles::INHERIT_FROM {
        return false;
    }
    image.name_kind(name) != name_kinds::PLAIN_ATTRSET
}

// Whether an item of an expression defines a name.
fn defines_any(image: Image<'_>, e: usize) -> bool
    requires { e < expr_count image.bytes.now }
    ensures { result ≡ not (empty (defined (decode image.entry.bytes.now) e)) }
{
    let items = image.item_place(e, 0);
    let count = image.item_count(e);
    (0..count).any(|k| defines_item(image, items + bytes::ITEM * k))
}

// Whether an expression makes a scope: a With, and what defines something.
pub fn makes_scope(image: Image<'_>, e: usize) -> bool
    requires { e < expr_count image.bytes.now }
    ensures { result ≡ makes (decode image.entry.bytes.now) e }
{
    match image.kind(e) {
        kinds::WITH => true,
        kinds::LAMBDA | kinds::LET_IN | kinds::ATTR_SET => defines_any(image, e),
        _ => false,
    }
}
