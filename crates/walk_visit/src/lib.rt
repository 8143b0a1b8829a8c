// What one visit of the walk does (nameres.rs, second half): how items are entered, and what is answered.
#![tactic(auto)]

ghost use Rattle.std.specs.Prelude.{◌≡◌};
ghost use Rattle.walk_visit.specs.Inside.Steps.{rule_numbered};

pub mod answers;
pub mod items;

// How far the walk is: what is left of one more than the budget, the edges and the narrowings recorded, the most that was in
// force, and how many records the list for false has of the condition that was analysed last for true.
#[derive(Clone, Copy)]
pub struct State {
    pub left: usize,
    pub edges: usize,
    pub recorded: usize,
    pub most: usize,
    pub elses: usize,
}

// The rules that items are entered by: the bindings of a let or of a rec set, those of another set, the parts of what may have a
// condition, and others.
#[derive(Clone, Copy, PartialEq, Eq)]
pub enum Rule {
    Others,
    Bindings,
    Set,
    Guarded,
}

// For callers that keep it as a number: any number is one of the rules.
impl From<usize> for Rule {
    ghost from_gives = { λ number rule. rule ≡ rule_numbered number };

    #[tactic(auto, unfolding(crate::specs::Inside::Steps::rule_numbered))]
    fn from(number: usize) -> Rule {
        match number {
            1 => Rule::Bindings,
            2 => Rule::Set,
            3 => Rule::Guarded,
            _ => Rule::Others,
        }
    }
}
