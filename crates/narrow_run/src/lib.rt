// `analyze_condition` (narrow.rs): one run over the nodes of a condition writes both lists.
#![tactic(auto)]

ghost use Rattle.std.specs.Prelude.{◌≡◌, ◌+◌, ◌≤◌, ◌<◌, ◌^◌};
ghost use Rattle.semantics.specs.Narrow.{nodes, shape};
ghost use Rattle.image_fields.specs.Image.{expr_count, decode};
ghost use Rattle.given.specs.Given.{given};
ghost use Rattle.narrow_leaf.specs.Inside.Told.{said, told as told_by};
ghost use Rattle.narrow_texts.specs.Inside.Predicates.{type_number, sort_and_value};
ghost use Rattle.narrow_run.specs.Inside.Run.{sheet, takes_numbered, outcome, takes, flipped, Few, TakeNone, chosen as chosen_of, as_number, says_of};
ghost use Rattle.narrow_run.specs.Inside.Run.{where_true as when_true, where_false as when_false, sent as sent_to};
ghost use Rattle.narrow_run.specs.Inside.Run.{Connects, Joins, Fed, LeafRan, Bounded, Ran, part_nodes, codes, part_codes, Ready};

use codes::{bytes, details, kinds, shifts, sorts, types};
use image::accepted::Image;
use narrow_leaf::told;
use narrow_leaf::told::NarrowInfo;
use narrow_texts::words::{NarrowPredicate, PrimitiveTy};

// What one name counts in a record, and one sort.
const ONE_NAME: usize = 1 << shifts::RECORD_NAME;

const ONE_SORT: usize = 1 << shifts::RECORD_SORT;

// How far the run is: what is left of one more than the budget, the records of the then list, those of the else list.
#[derive(Clone, Copy)]
pub struct Progress {
    pub left: usize,
    pub thens: usize,
    pub elses: usize,
}

// Which of a node's lists a list takes: the one for true, as the then list takes of the whole condition, the one for false, as the else
// list does, or neither.
#[derive(Clone, Copy, PartialEq, Eq)]
pub enum Takes {
    ForTrue,
    ForFalse,
    Neither,
}

// For callers that keep it as a number: any number says which.
impl From<usize> for Takes {
    ghost from_gives = { λ number takes. takes ≡ takes_numbered number };

    #[tactic(auto, unfolding(crate::specs::Inside::Run::takes_numbered))]
    fn from(number: usize) -> Takes {
        match number {
            1 => Takes::ForTrue,
            2 => Takes::ForFalse,
            _ => Takes::Neither,
        }
    }
}

// The connective of a node, whose parts are analysed; a leaf has none.
#[derive(Clone, Copy, PartialEq, Eq)]
pub enum Connective {
    Leaf,
    Not,
    And,
    Or,
    Implication,
}

// The numbers of `PrimitiveTy`, and of `NarrowPredicate` with its value.
fn type_number(prim: PrimitiveTy) -> usize
    ensures { result ≡ type_number prim }
{
    match prim {
        PrimitiveTy::Null => types::NULL,
        PrimitiveTy::Bool => types::BOOL,
        PrimitiveTy::Int => types::INT,
        PrimitiveTy::Float => types::FLOAT,
        PrimitiveTy::String => types::STRING,
        PrimitiveTy::Path => types::PATH,
    }
}

fn sort_and_value(predicate: NarrowPredicate) -> usize
    requires { (sort_and_value predicate).1 < 2 ^ 14 }
    ensures { result ≡ as_number (sort_and_value predicate) }
{
    match predicate {
        NarrowPredicate::IsType(prim) => sorts::IS_TYPE * ONE_SORT + type_number(prim),
        NarrowPredicate::IsNotType(prim) => sorts::IS_NOT_TYPE * ONE_SORT + type_number(prim),
        NarrowPredicate::HasField(key) => sorts::HAS_FIELD * ONE_SORT + key,
        NarrowPredicate::NotHasField(key) => sorts::NOT_HAS_FIELD * ONE_SORT + key,
        NarrowPredicate::IsAttrSet => sorts::IS_ATTR_SET * ONE_SORT,
        NarrowPredicate::IsList => sorts::IS_LIST * ONE_SORT,
        NarrowPredicate::IsFunction => sorts::IS_FUNCTION * ONE_SORT,
        NarrowPredicate::IsNumber => sorts::IS_NUMBER * ONE_SORT,
    }
}

// What a record says of its name.
#[tactic(auto, unfolding(crate::specs::Inside::Run::says_of))]
fn says(told: Option<NarrowPredicate>) -> Option<usize>
    requires { Few told }
    ensures { result ≡ says_of told }
{
    Some(sort_and_value(told?))
}

// What a list takes of what a node tells. It is a number by then: of two predicates the one that is taken would cost each level 16 bytes.
fn chosen(from: Takes, told: NarrowInfo) -> Option<usize>
    requires { Bounded told }
    ensures { result ≡ says_of (chosen_of (outcome from) told) }
{
    match from {
        Takes::ForTrue => says(told.then_branch),
        Takes::ForFalse => says(told.else_branch),
        Takes::Neither => None,
    }
}

// The other of the two.
fn turned(from: Takes) -> Takes
    ensures { outcome result ≡ flipped (outcome from) }
{
    match from {
        Takes::ForTrue => Takes::ForFalse,
        Takes::ForFalse => Takes::ForTrue,
        Takes::Neither => Takes::Neither,
    }
}

// `&&` leaves the list for true alone.
fn where_true(from: Takes) -> Takes
    ensures { outcome result ≡ when_true (outcome from) }
{
    match from {
        Takes::ForTrue => Takes::ForTrue,
        Takes::ForFalse => Takes::Neither,
        Takes::Neither => Takes::Neither,
    }
}

// `||` and `->` leave the list for false alone.
fn where_false(from: Takes) -> Takes
    ensures { outcome result ≡ when_false (outcome from) }
{
    match from {
        Takes::ForTrue => Takes::Neither,
        Takes::ForFalse => Takes::ForFalse,
        Takes::Neither => Takes::Neither,
    }
}

// Which it takes of part k of a node, by the node's connective.
fn sent(connective: Connective, k: usize, from: Takes) -> Takes
    ensures { outcome result ≡ sent_to connective k (outcome from) }
{
    match connective {
        Connective::And => where_true(from),
        Connective::Or => where_false(from),
        Connective::Implication if k == 0 => turned(where_false(from)),
        Connective::Implication => where_false(from),
        Connective::Leaf => Takes::Neither,
        Connective::Not => Takes::Neither,
    }
}

pub fn connective_of(image: Image<'_>, c: usize) -> Connective
    requires { c < expr_count image.bytes.now }
    ensures { Connects (decode image.entry.bytes.now) c result }
{
    let kind = image.kind(c);
    let detail = image.detail(c);
    match kind {
        kinds::UNARY_OP => match detail {
            details::INVERT => Connective::Not,
            _ => Connective::Leaf,
        },
        kinds::BIN_OP => match detail {
            details::AND => Connective::And,
            details::OR => Connective::Or,
            details::IMPLICATION => Connective::Implication,
            _ => Connective::Leaf,
        },
        _ => Connective::Leaf,
    }
}

// What a list takes of what a node tells, written behind the records that it has, where there is room: the one place that writes a record.
fn tell(list: &mut [u8], count: usize, from: Takes, told: NarrowInfo) -> usize
    requires count_bound { count < 2 ^ 32 }
    requires bounded { Bounded told }
    ensures { Fed (said told.name (chosen_of (outcome from) told)) count result list.old list.new }
{
    let Some(says) = chosen(from, told) else {
        return count;
    };
    lent::put32(list, bytes::RECORD * count, told.name * ONE_NAME + says);
    count + 1
}

// Neither list takes one.
fn take_none(then_from: Takes, else_from: Takes) -> bool
    ensures { TakeNone (outcome then_from) (outcome else_from) result }
{
    then_from == Takes::Neither && else_from == Takes::Neither
}

// A node without parts that are analysed, after its step. Where no list takes what it tells, that is not looked for.
fn analyze_leaf(
    image: Image<'_>,
    resolutions: &[u8],
    bindings: &[u8],
    then_list: &mut [u8],
    else_list: &mut [u8],
    c: usize,
    then_from: Takes,
    else_from: Takes,
    state: &mut Progress,
)
    requires { Ready image.bytes.now resolutions.now bindings.now c state.old }
    ensures { let before = sheet state.old then_list.old else_list.old in
        let after = sheet state.new then_list.new else_list.new in
        let tables = given resolutions.now bindings.now in
        let t = decode image.entry.bytes.now in
        LeafRan (told_by t tables (shape t c)) (outcome then_from) (outcome else_from) before after }
{
    if take_none(then_from, else_from) {
        return;
    }
    let told = told::told(image, resolutions, bindings, c);
    state.thens = tell(then_list, state.thens, then_from, told);
    state.elses = tell(else_list, state.elses, else_from, told);
}

// One node: a step, and its lists' records. The part of a `!` is the next turn, so that a chain of them takes no stack.
#[cycle(analyze_node_analyze_parts)]
pub fn analyze_node(
    image: Image<'_>,
    resolutions: &[u8],
    bindings: &[u8],
    then_list: &mut [u8],
    else_list: &mut [u8],
    mut c: usize,
    mut then_from: Takes,
    mut else_from: Takes,
    state: &mut Progress,
)
    requires { Ready image.bytes.now resolutions.now bindings.now c state.old }
    ensures { let before = sheet state.old then_list.old else_list.old in
        let after = sheet state.new then_list.new else_list.new in
        let tables = given resolutions.now bindings.now in
        let t = decode image.entry.bytes.now in
        let told = codes t tables c in
        Ran (nodes t c) (takes (outcome then_from) told) (takes (outcome else_from) told) before after }
{
    loop {
        state.left -= 1;
        if state.left == 0 {
            return;
        }
        let connective = connective_of(image, c);
        match connective {
            Connective::Leaf => {
                analyze_leaf(
                    image,
                    resolutions,
                    bindings,
                    then_list,
                    else_list,
                    c,
                    then_from,
                    else_from,
                    state,
                );
                return;
            }
            Connective::Not => {
                then_from = turned(then_from);
                else_from = turned(else_from);
                c = image.item_expression(c, 0);
            }
            Connective::And | Connective::Or | Connective::Implication => {
                analyze_parts(
                    image,
                    resolutions,
                    bindings,
                    then_list,
                    else_list,
                    c,
                    connective,
                    then_from,
                    else_from,
                    state,
                );
                return;
            }
        }
    }
}

// The parts of `&&`, `||` and `->`, the left before the right. Their number is read, so that the call stands once and the frame is small.
#[cycle(analyze_node_analyze_parts)]
fn analyze_parts(
    image: Image<'_>,
    resolutions: &[u8],
    bindings: &[u8],
    then_list: &mut [u8],
    else_list: &mut [u8],
    c: usize,
    connective: Connective,
    then_from: Takes,
    else_from: Takes,
    state: &mut Progress,
)
    requires ready { Ready image.bytes.now resolutions.now bindings.now c state.old }
    requires joins { Joins (decode image.bytes.now) c }
    ensures { let before = sheet state.old then_list.old else_list.old in
        let after = sheet state.new then_list.new else_list.new in
        let tables = given resolutions.now bindings.now in
        let t = decode image.entry.bytes.now in
        let thens = part_codes t tables c connective (outcome then_from) in
        let elses = part_codes t tables c connective (outcome else_from) in
        Ran (part_nodes t c) thens elses before after }
{
    let thens = [
        sent(connective, 0, then_from),
        sent(connective, 1, then_from),
    ];
    let elses = [
        sent(connective, 0, else_from),
        sent(connective, 1, else_from),
    ];
    for k in 0..image.item_count(c) {
        let part = image.item_expression(c, k);
        analyze_node(
            image,
            resolutions,
            bindings,
            then_list,
            else_list,
            part,
            thens[k],
            elses[k],
            state,
        );
        if state.left == 0 {
            return;
        }
    }
}
