// The rules of one expression and of its items (specs/Rules.antt).
#![tactic(auto)]

ghost use Rattle.std.specs.Prelude.{◌≡◌, ◌&&◌, ◌+◌, ◌*◌, ◌/◌, ◌%◌, ◌^◌, ◌≤◌, ◌<◌};
ghost use Rattle.semantics.specs.Codes.{kinds, roles};
ghost use Rattle.semantics.specs.Base.{every};
ghost use Rattle.semantics.specs.Tree.{expr_at};
ghost use Rattle.image_fields.specs.Image.{expr_count, name_count, item_place, kind_of, first_of, count_of, decode};
ghost use Rattle.image_rules.specs.Rules.{detail_count as details_of, texted as texted_of, expr_fits, fits as fits_with};
ghost use Rattle.image_rules.specs.Inside.Whole.{item_fits};
ghost use Rattle.image_rules.specs.Rules.{order as order_of, complete};
ghost use Rattle.image_rules.specs.Inside.Whole.{items_fit};
ghost use Rattle.image_fields.specs.Inside.Asked.{Sized, Runs};
ghost use Rattle.image_rules.specs.Inside.Machine.{form_kind, form_detail, owner_fits, presence_of, item_of_word, plain_below, child_below};
ghost use Rattle.image_rules.specs.Inside.Machine.{named_below, field_below, parameter_below};

use codes::{NONE, bits, bytes, forms, kinds, offsets, roles, shifts};
use items::Items;

mod items;
mod order;
pub mod parts;

// What one name and one role count in the four bytes of an item, and where these go round.
const ONE_NAME: usize = 1 << shifts::ITEM_NAME;

const ONE_ROLE: usize = 1 << shifts::ITEM_ROLE;

const ROUND: usize = 1 << 8 * bytes::ITEM;

// Where a number of 14 bits goes round.
const NUMBERS: usize = 1 << bits::NUMBER;

// Role and name of an item as one number, and that of a pattern field without a name.
const ROLE_AND_NAME: usize = bits::ROLE + bits::NUMBER;

const NAMELESS_FIELD: usize = roles::PATTERN_FIELD * NUMBERS + NONE;

// Whether an item has a name, an expression, so many bits a role from the right, roles 10 to 0.
const MARK: usize = 2;

const HAS: usize = 2;

const MAY: usize = 1;

const HAS_NOT: usize = 0;

const NAMED: usize = 0b10_00_00_00_10_10_10_01_00_00_00;

const OWNS: usize = 0b00_10_10_10_10_10_10_01_10_10_10;

// The roles that have no name and an expression, 1 bit a role from the right: most items are in one of them.
const PLAIN: usize = 0b0_1_1_1_0_0_0_0_1_1_1;

// How many details a kind has, so many bits a kind from the right, kinds 15 to 0.
const DETAIL_COUNT: usize = 4;

const DETAILS: usize =
    0b0001_0001_0001_0001_0001_0001_0010_0010_1111_0001_0001_0001_0101_0001_0001_0001;

// The same of a kind that may stand without items, and 0 of one that may not.
const BARE: usize =
    0b0001_0000_0000_0000_0000_0001_0000_0010_0000_0001_0000_0000_0101_0000_0000_0001;

// How many items a kind has where all are children, so many bits a kind from the right, kinds 16 to 0; above `ANY` it has
// another order, which may be that of a path or of a pattern.
const CHILD_COUNT: usize = 3;

const ANY: usize = 4;

const PATH: usize = 6;

const PATTERN: usize = 7;

const CHILDREN: usize = 0b100_100_010_010_110_110_000_001_101_010_100_101_111_000_011_010_000;

// What takes the four bytes of a child, role 0 and no name, round to its expression.
const FROM_CHILD: usize = ROUND - NONE * ONE_NAME;

// How many details a kind has. Kind 16 wraps round to the 1 of kind 0: a test for it would be a branch that the compiler
// makes a table of jumps.
fn details(kind: usize) -> usize
    requires { kind ≤ kinds.PathInterpolation }
    ensures { result ≡ details_of kind }
{
    image_fields::part(DETAILS, DETAIL_COUNT * kind % 64, DETAIL_COUNT)
}

// Whether kind and detail, 5 bits each, are those of a Reference or of a String literal.
fn texted(form: usize) -> bool
    requires { form_detail form < details_of (form_kind form) }
    ensures { result ≡ texted_of (form_kind form) (form_detail form) }
{
    if form == forms::REFERENCE {
        return true;
    }
    form == forms::STRING
}

// 5, of an expression's own fields: `form` is kind and detail. The text is tested by one choice, since a branch on the
// kind is foreseen badly.
pub fn expr_fits(form: usize, text: usize, texts: usize) -> bool
    ensures { result ≡ expr_fits texts (form_kind form) (form_detail form) text }
{
    let kind = form / forms::ONE_KIND;
    if kind > kinds::LAST {
        return false;
    }
    if form % forms::ONE_KIND >= details(kind) {
        return false;
    }
    if texted(form) {
        text < texts
    } else {
        text == NONE
    }
}

// 5 and 6, of an expression without items. Most are References, so they are asked for first.
pub fn bare_fits(form: usize, text: usize, texts: usize) -> bool
    ensures { result ≡ (expr_fits texts (form_kind form) (form_detail form) text && complete (order_of (form_kind form))) }
{
    if form == forms::REFERENCE {
        return text < texts;
    }
    if form == forms::STRING {
        return text < texts;
    }
    if text != NONE {
        return false;
    }
    let kind = form / forms::ONE_KIND;
    if kind > kinds::LAST {
        return false;
    }
    form % forms::ONE_KIND < image_fields::part(BARE, DETAIL_COUNT * kind % 64, DETAIL_COUNT)
}

// 5, of an expression with items: it has no text, since `items_fit` refuses the kinds that have one. Most details are 0, which
// every kind has.
pub fn owner_fits(form: usize, text: usize) -> bool
    ensures { result ≡ owner_fits (form_kind form) (form_detail form) text }
{
    let kind = form / forms::ONE_KIND;
    if kind > kinds::LAST {
        return false;
    }
    if text != NONE {
        return false;
    }
    if form % forms::ONE_KIND == 0 {
        return true;
    }
    form % forms::ONE_KIND < details(kind)
}

// A number below a bound, or none, as the mark of its role says.
fn fits(mark: usize, bound: usize, x: usize) -> bool
    ensures { result ≡ fits_with (presence_of mark) bound x }
{
    if mark == HAS {
        return x < bound;
    }
    if mark == HAS_NOT {
        return x == NONE;
    }
    if x == NONE {
        return true;
    }
    x < bound
}

// Whether four bytes are those of an item of a role, with a name. One comparison: those of another role go round to a number that
// no name reaches.
fn named_fits(item: usize, role: usize, names: usize) -> bool
    requires { (role ≤ roles.Parameter) × (names ≤ 2 ^ 14) }
    ensures { result ≡ named_below role names (item_of_word item) }
{
    (item % ROUND + ROUND - ONE_ROLE * role) % ROUND < ONE_NAME * names
}

// 6, 10 and 11, of an item with these four bytes. Most bindings are static, so that role is asked for first.
fn item_fits(image: &[u8], item: usize, owner: usize, names: usize) -> bool
    requires sized { (Sized image.now) × (owner < expr_count image.now) }
    requires names_value { names ≡ name_count image.now }
    ensures { result ≡ item_fits (decode image.now) owner (item_of_word item) }
{
    let expression = image_fields::part(item, shifts::ITEM_EXPRESSION, bits::NUMBER);
    if named_fits(item, roles::STATIC_EXPR, names) {
        return expression < owner;
    }
    let role = image_fields::part(item, shifts::ITEM_ROLE, bits::ROLE);
    if role > roles::LAST {
        return false;
    }
    let name = image_fields::part(item, shifts::ITEM_NAME, bits::NUMBER);
    if image_fields::part(PLAIN, role, 1) == 1 {
        if name == NONE {
            return expression < owner;
        }
        return false;
    }
    if !fits(image_fields::part(NAMED, MARK * role, MARK), names, name) {
        return false;
    }
    if !fits(
        image_fields::part(OWNS, MARK * role, MARK),
        owner,
        expression,
    ) {
        return false;
    }
    if role != roles::INHERIT {
        return true;
    }
    let at = bytes::HEADER + bytes::EXPR * expression;
    image_fields::field(image, at, offsets::EXPR_KIND, bits::KIND) == kinds::REFERENCE
}

// Whether four bytes are those of an item of a role, without a name and with an expression below its owner. One comparison: those
// of another role, or with a name, go round to a number that is no expression.
fn plain_fits(item: usize, role: usize, owner: usize) -> bool
    requires { (item < 2 ^ 32) × (role ≤ roles.Parameter) × (owner ≤ 2 ^ 14) }
    ensures { result ≡ plain_below role owner (item_of_word item) }
{
    (item + FROM_CHILD - ONE_ROLE * role) % ROUND < owner
}

// Whether the items of an expression are all children, as most are.
fn children_fit(items: Items) -> bool
    ensures { let i = items.entry in result ≡ every (child_below i.owner) (expr_at (decode i.image.now) i.owner).items }
{
    for k in 0..items.count {
        if !plain_fits(items.word(k), roles::CHILD, items.owner) {
            return false;
        }
    }
    true
}

// 6, 10 and 11, of the items of a Select or a HasAttr: the set, then keys, and of a Select perhaps a default.
fn path_fits(items: Items, kind: usize) -> bool
    requires { (kind ≡ kind_of items.image.now items.owner) × (kinds.Select ≤ kind) × (kind ≤ kinds.HasAttr) }
    ensures { let i = items.entry in result ≡ items_fit (decode i.image.now) i.owner }
{
    if items.count == 0 {
        return false;
    }
    let set = items.word(0);
    if !plain_fits(set, roles::CHILD, items.owner) {
        return false;
    }
    for k in 1..items.count {
        let item = items.word(k);
        if !plain_fits(item, roles::PATH_KEY, items.owner) {
            if kind != kinds::SELECT {
                return false;
            }
            if k + 1 != items.count {
                return false;
            }
            return plain_fits(item, roles::DEFAULT, items.owner);
        }
    }
    true
}

// Whether four bytes are those of a field of a pattern, which may have a name and an expression. No expression, and one more,
// goes round to 0.
fn field_fits(item: usize, owner: usize, names: usize) -> bool
    requires { names ≤ 2 ^ 14 }
    ensures { result ≡ field_below owner names (item_of_word item) }
{
    if !named_fits(item, roles::PATTERN_FIELD, names) {
        if image_fields::part(item, shifts::ITEM_NAME, ROLE_AND_NAME) != NAMELESS_FIELD {
            return false;
        }
    }
    (image_fields::part(item, shifts::ITEM_EXPRESSION, bits::NUMBER) + 1) % NUMBERS <= owner
}

// Whether four bytes are those of a parameter: a name, and no expression.
fn parameter_fits(item: usize, names: usize) -> bool
    requires { names ≤ 2 ^ 14 }
    ensures { result ≡ parameter_below names (item_of_word item) }
{
    if image_fields::part(item, shifts::ITEM_EXPRESSION, bits::NUMBER) != NONE {
        return false;
    }
    named_fits(item, roles::PARAMETER, names)
}

// 6, 10 and 11, of the items of a Lambda: perhaps a parameter, then fields, and the body.
fn lambda_fits(items: Items, names: usize) -> bool
    requires { (kinds.Lambda ≡ kind_of items.image.now items.owner) × (names ≡ name_count items.image.now) }
    ensures { let i = items.entry in result ≡ items_fit (decode i.image.now) i.owner }
{
    if items.count == 0 {
        return false;
    }
    let last = items.count - 1;
    for k in 0..last {
        let item = items.word(k);
        if !field_fits(item, items.owner, names) {
            if k != 0 {
                return false;
            }
            if !parameter_fits(item, names) {
                return false;
            }
        }
    }
    plain_fits(items.word(last), roles::CHILD, items.owner)
}

// 6, 10 and 11, of the items of an expression, by the machine of its order.
fn mixed_fit(items: Items, kind: usize, names: usize) -> bool
    requires { (kind ≡ kind_of items.image.now items.owner) × (names ≡ name_count items.image.now) }
    ensures { let i = items.entry in result ≡ items_fit (decode i.image.now) i.owner }
{
    let mut state = order::start(kind);
    let mut row = order::row(state);
    for k in 0..items.count {
        let item = items.word(k);
        if !item_fits(items.image, item, items.owner, names) {
            return false;
        }
        let role = image_fields::part(item, shifts::ITEM_ROLE, bits::ROLE);
        let next = image_fields::part(row, order::STATE * role, order::STATE);
        if next != state {
            state = next;
            row = order::row(state);
        }
    }
    order::complete(state)
}

// 6, 10 and 11, of the items of an expression: most kinds have children only, a path or a pattern, and need no machine.
pub fn items_fit(
    image: &[u8],
    first: usize,
    count: usize,
    kind: usize,
    owner: usize,
    names: usize,
) -> bool
    requires runs { Runs image.now owner }
    requires first_value { (first ≡ item_place image.now (first_of image.now owner)) × (count ≡ count_of image.now owner) }
    requires kind_value { (kind ≡ kind_of image.now owner) × (names ≡ name_count image.now) }
    ensures { result ≡ items_fit (decode image.now) owner }
{
    let items = Items {
        image,
        first,
        count,
        owner,
    };
    let children = image_fields::part(CHILDREN, CHILD_COUNT * kind, CHILD_COUNT);
    if children > ANY {
        if children == PATTERN {
            return lambda_fits(items, names);
        }
        if children == PATH {
            return path_fits(items, kind);
        }
        return mixed_fit(items, kind, names);
    }
    if children < ANY {
        if children != count {
            return false;
        }
    }
    children_fit(items)
}
