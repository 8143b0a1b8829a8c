#![tactic(auto)]

// Nothing that runs: this crate holds the definitions that a reader must believe, in specs/.
