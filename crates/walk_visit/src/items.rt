// How the walk enters the items of an expression (`traverse_bindings`, `walk_child_exprs`).
ghost use Rattle.std.specs.Prelude.{◌≡◌, length, ◌+◌, ◌≤◌, ◌<◌};
ghost use Rattle.semantics.specs.Codes.{kinds, widths};
ghost use Rattle.semantics.specs.Tree.{expr_at, item_at};
ghost use Rattle.image_fields.specs.Image.{expr_count, items_place, item_here, decode};
ghost use Rattle.walk_visit.specs.Inside.Steps.{rule_of, role_enters, enters_item, opens_at, bare_at, binding_in};

use crate::Rule;
use codes::{NONE, bytes, details, kinds, roles};
use image::accepted::Image;

// The rule of each kind that is told by itself: a table, where a match would be a jump that the machine cannot foresee.
static RULES: [Rule; 17] = [
    Rule::Others,
    Rule::Others,
    Rule::Guarded, // IF_THEN_ELSE
    Rule::Others,
    Rule::Others,
    Rule::Bindings, // LET_IN
    Rule::Others,
    Rule::Others,
    Rule::Others,
    Rule::Others,
    Rule::Others,
    Rule::Others,
    Rule::Others,
    Rule::Others,
    Rule::Guarded, // ASSERT
    Rule::Others,
    Rule::Others,
];

// What an Apply applies. The byte at which the item table starts is handed on, so that no visit reads the header for it.
fn applied(image: Image<'_>, items_at: usize, e: usize) -> usize
    requires e_bound { (e < expr_count image.bytes.now) × ((expr_at (decode image.bytes.now) e).kind ≡ kinds.Apply) }
    requires items_at_value { items_at ≡ items_place image.bytes.now }
    ensures { result ≡ (item_at (decode image.entry.bytes.now) e 0).expression }
{
    image.expression_at(items_at + bytes::ITEM * image.first_item(e))
}

// The rule of an Apply: it may have a condition if it applies an Apply of what has a name, as a recognised function has.
fn call_rule(image: Image<'_>, items_at: usize, e: usize) -> Rule
    requires e_bound { (e < expr_count image.bytes.now) × ((expr_at (decode image.bytes.now) e).kind ≡ kinds.Apply) }
    requires items_at_value { items_at ≡ items_place image.bytes.now }
    ensures { result ≡ rule_of (decode image.entry.bytes.now) e }
{
    let f = applied(image, items_at, e);
    if image.kind(f) != kinds::APPLY {
        return Rule::Others;
    }
    let kind = image.kind(applied(image, items_at, f));
    if kind == kinds::REFERENCE {
        return Rule::Guarded;
    }
    if kind == kinds::SELECT {
        return Rule::Guarded;
    }
    Rule::Others
}

// The rule of an expression.
pub fn rule(image: Image<'_>, items_at: usize, e: usize) -> Rule
    requires { (e < expr_count image.bytes.now) × (items_at ≡ items_place image.bytes.now) }
    ensures { result ≡ rule_of (decode image.entry.bytes.now) e }
{
    let kind = image.kind(e);
    if kind == kinds::APPLY {
        return call_rule(image, items_at, e);
    }
    if kind == kinds::ATTR_SET {
        if image.detail(e) == details::REC {
            return Rule::Bindings;
        }
        return Rule::Set;
    }
    RULES[kind]
}

// Whether items in this role are entered: a let and a rec set skip an inherit base, another set an InheritFrom.
#[tactic(auto, unfolding(crate::specs::Inside::Steps::role_enters))]
fn role_enters(rule: Rule, role: usize) -> bool
    ensures { result ≡ role_enters rule role }
{
    if rule == Rule::Bindings {
        return role != roles::INHERIT_BASE;
    }
    if rule == Rule::Set {
        return role != roles::INHERIT_FROM;
    }
    true
}

// Whether the item at byte `at` is entered, which needs an expression.
pub fn enters(image: &[u8], rule: Rule, at: usize) -> bool
    requires { at + widths.item ≤ length image.now }
    ensures { result ≡ enters_item rule (item_here image.now at) }
{
    if image::expression_at(image, at) == NONE {
        return false;
    }
    role_enters(rule, image::role_at(image, at))
}

// Whether an item is the own expression of a binding: static, or inherited.
#[tactic(auto, unfolding(crate::specs::Inside::Steps::opens_at))]
pub fn opens(rule: Rule, role: usize) -> bool
    ensures { result ≡ opens_at rule role }
{
    rule == Rule::Bindings && roles::STATIC_EXPR <= role && role <= roles::INHERIT_FROM
}

// Whether it has no binding: the dynamic parts of a let and of a rec set.
#[tactic(auto, unfolding(crate::specs::Inside::Steps::bare_at))]
fn is_bare(rule: Rule, role: usize) -> bool
    ensures { result ≡ bare_at rule role }
{
    rule == Rule::Bindings && (role == roles::DYNAMIC_KEY || role == roles::DYNAMIC_VALUE)
}

// The binding inside the item at byte `at`, from the one around its owner.
pub fn binding_in(image: &[u8], rule: Rule, binding: usize, at: usize) -> usize
    requires { at + widths.item ≤ length image.now }
    ensures { result ≡ binding_in rule binding (item_here image.now at) }
{
    let Rule::Bindings = rule else {
        return binding;
    };
    let role = image::role_at(image, at);
    if opens(rule, role) {
        return image::name_at(image, at);
    }
    if is_bare(rule, role) {
        return NONE;
    }
    binding
}
