// Rules 6 and 10 of an expression's items, each on its own. Asked only of an image that the one pass refuses, to tell which rule it breaks.
ghost use Rattle.std.specs.Prelude.{◌≡◌};
ghost use Rattle.image_fields.specs.Image.{name_count, items_place, decode};
ghost use Rattle.image_fields.specs.Inside.Asked.{Runs};
ghost use Rattle.image_rules.specs.Rules.{item_stands, items_stand, items_smaller};
ghost use Rattle.image_rules.specs.Inside.Machine.{item_of_word};

use crate::items::Items;
use crate::{MARK, MAY, NAMED, OWNS, order};
use codes::{NONE, bits, bytes, offsets, roles, shifts};

// 6, of an item with these four bytes: any number but NONE is an expression that is there.
fn item_stands(item: usize, names: usize) -> bool
    ensures { result ≡ item_stands names (item_of_word item) }
{
    let role = image_fields::part(item, shifts::ITEM_ROLE, bits::ROLE);
    if role > roles::LAST {
        return false;
    }
    let name = image_fields::part(item, shifts::ITEM_NAME, bits::NUMBER);
    if !crate::fits(image_fields::part(NAMED, MARK * role, MARK), names, name) {
        return false;
    }
    let expression = image_fields::part(item, shifts::ITEM_EXPRESSION, bits::NUMBER);
    crate::fits(
        image_fields::part(OWNS, MARK * role, MARK),
        NONE,
        expression,
    )
}

// 6, of the items of an expression.
pub fn items_stand(image: &[u8], items_at: usize, e: usize, names: usize) -> bool
    requires runs { Runs image.now e }
    requires items_at_value { (items_at ≡ items_place image.now) × (names ≡ name_count image.now) }
    ensures { result ≡ items_stand (decode image.now) e }
{
    let items = Items::of(image, items_at, e);
    let at = bytes::HEADER + bytes::EXPR * e;
    let mut state = order::start(image_fields::in_eight(image, at, offsets::EXPR_KIND, bits::KIND));
    for k in 0..items.count {
        let item = items.word(k);
        if !item_stands(item, names) {
            return false;
        }
        let role = image_fields::part(item, shifts::ITEM_ROLE, bits::ROLE);
        state = image_fields::part(order::row(state), order::STATE * role, order::STATE);
    }
    order::complete(state)
}

// 10, of the items of an expression.
pub fn items_smaller(image: &[u8], items_at: usize, e: usize) -> bool
    requires runs { Runs image.now e }
    requires items_at_value { items_at ≡ items_place image.now }
    ensures { result ≡ items_smaller (decode image.now) e }
{
    let items = Items::of(image, items_at, e);
    (0..items.count).all(|k| {
        let expression = image_fields::part(items.word(k), shifts::ITEM_EXPRESSION, bits::NUMBER);
        crate::fits(MAY, e, expression)
    })
}
