// The constant tables of narrow.rs: `TYPE_PREDICATES`, `COMPOUND_PREDICATES` and `CONDITIONAL_FN_NAMES`.
ghost use Rattle.std.specs.Prelude.{◌≡◌};
ghost use Rattle.semantics.specs.Words.{entry, predicate as predicate_of, conditional_fn_names};
ghost use Rattle.narrow_texts.specs.Inside.Predicates.{passing};
ghost use Rattle.narrow_texts.specs.Inside.Rows.{conditional_of, answer_in};

// `PrimitiveTy`
#[derive(Clone, Copy)]
pub enum PrimitiveTy {
    Null,
    Bool,
    Int,
    Float,
    String,
    Path,
}

// `NarrowPredicate`: what a condition tells of a name. A field goes by the number of its text. IsNumber is document 02's, order 5.
#[derive(Clone, Copy)]
pub enum NarrowPredicate {
    IsType(PrimitiveTy),
    IsNotType(PrimitiveTy),
    HasField(usize),
    NotHasField(usize),
    IsAttrSet,
    IsList,
    IsFunction,
    IsNumber,
}

// `ConditionalFn`
#[derive(Clone, Copy)]
pub enum ConditionalFn {
    OptionalString,
    OptionalAttrs,
    Optional,
    MkIf,
}

// A row of a table: a name, and what it is paired with.
struct Row<A> {
    name: &'static [u8],
    answer: A,
}

// What a predicate of each name tells of a value that passes.
static TYPE_PREDICATES: [Row<NarrowPredicate>; 6] = [
    Row {
        name: b"isNull",
        answer: NarrowPredicate::IsType(PrimitiveTy::Null),
    },
    Row {
        name: b"isString",
        answer: NarrowPredicate::IsType(PrimitiveTy::String),
    },
    Row {
        name: b"isInt",
        answer: NarrowPredicate::IsType(PrimitiveTy::Int),
    },
    Row {
        name: b"isFloat",
        answer: NarrowPredicate::IsType(PrimitiveTy::Float),
    },
    Row {
        name: b"isBool",
        answer: NarrowPredicate::IsType(PrimitiveTy::Bool),
    },
    Row {
        name: b"isPath",
        answer: NarrowPredicate::IsType(PrimitiveTy::Path),
    },
];

static COMPOUND_PREDICATES: [Row<NarrowPredicate>; 3] = [
    Row {
        name: b"isAttrs",
        answer: NarrowPredicate::IsAttrSet,
    },
    Row {
        name: b"isList",
        answer: NarrowPredicate::IsList,
    },
    Row {
        name: b"isFunction",
        answer: NarrowPredicate::IsFunction,
    },
];

// Which conditional function each name is.
static CONDITIONAL_FN_NAMES: [Row<ConditionalFn>; 4] = [
    Row {
        name: b"optionalString",
        answer: ConditionalFn::OptionalString,
    },
    Row {
        name: b"optionalAttrs",
        answer: ConditionalFn::OptionalAttrs,
    },
    Row {
        name: b"optional",
        answer: ConditionalFn::Optional,
    },
    Row {
        name: b"mkIf",
        answer: ConditionalFn::MkIf,
    },
];

// What a table pairs with a text. It is lent the table, which as a local variable would stand on the stack at each level of a condition.
#[tactic(auto, unfolding(crate::specs::Inside::Rows::answer_in))]
fn answer_named<A: Copy>(rows: &[Row<A>], text: &[u8]) -> Option<A>
    ensures { result ≡ answer_in text.now rows.now }
{
    rows.iter()
        .find(|row| texts::same(text, row.name))
        .map(|row| row.answer)
}

// What the predicate of this name tells of a value that passes.
pub fn predicate_named(text: &[u8]) -> Option<NarrowPredicate>
    ensures { result ≡ passing (predicate_of text.now) }
{
    answer_named(&TYPE_PREDICATES, text).or_else(|| answer_named(&COMPOUND_PREDICATES, text))
}

// The conditional function of this name.
pub fn conditional_fn(text: &[u8]) -> Option<ConditionalFn>
    ensures { result ≡ conditional_of (entry text.now conditional_fn_names) }
{
    answer_named(&CONDITIONAL_FN_NAMES, text)
}
