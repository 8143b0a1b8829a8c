// The binding index (lib.rs): for each name the expression that a binding gives it.
#![tactic(auto)]

ghost use Rattle.std.specs.Prelude.{◌≡◌, ◌+◌, ◌≤◌, length};
ghost use Rattle.semantics.specs.Codes.{widths};
ghost use Rattle.semantics.specs.Base.{each};
ghost use Rattle.image_fields.specs.Image.{item_here, decode};
ghost use Rattle.lent.specs.Calls.{first_broken, leaves, outcome_after, outcome};
ghost use Rattle.index.specs.Outcome.{own_rules, indexing};
ghost use Rattle.index.specs.Inside.Entering.{entered, entering};

use codes::refusals::Refusal;
use codes::{bytes, roles};
use image::accepted::Image;

// Enters the item at byte `at`, if it binds a name to an expression.
fn enter(image: Image<'_>, table: &mut [u8], at: usize)
    requires { at + widths.item ≤ length image.bytes.now }
    ensures { table.new ≡ entered table.old (item_here image.entry.bytes.now at) }
{
    let role = image.role_at(at);
    if role != roles::STATIC_EXPR {
        if role != roles::INHERIT_FROM {
            return;
        }
    }
    let name = image.name_at(at);
    let expression = image.expression_at(at);
    lent::put16(table, bytes::ENTRY * name, expression);
}

// All items, in the order of their owners.
fn enter_all(image: Image<'_>, table: &mut [u8])
    ensures { table.new ≡ entering (each (λ x. x.items) (decode image.entry.bytes.now).exprs) table.old }
{
    let items = image.items_place();
    let count = image.item_total();
    for i in 0..count {
        enter(image, table, items + bytes::ITEM * i);
    }
}

// The call on an accepted image.
pub fn index(image: Image<'_>, table: &mut [u8]) -> Result<(), Refusal>
    ensures { let s = image.entry.bytes.now in
        let before = table.old in
        leaves result table.new ≡ outcome_after indexing (first_broken (own_rules s before)) s before }
{
    let names = image.name_count();
    if table.len() < bytes::ENTRY * names {
        lent::clear(table);
        return Err(Refusal::BufferTooShort);
    }
    lent::fill_none(table, names);
    enter_all(image, table);
    Ok(())
}

// The index of an image, 2 bytes a name.
pub fn compute_module_indices(image: &[u8], table: &mut [u8]) -> Result<(), Refusal>
    ensures { leaves result table.new ≡ outcome indexing image.now table.old }
{
    let image = Image::new(image)?;
    index(image, table)
}
