// The labels of mutants are true where an expression and its mutant both have a value and these differ: `specs/Laws.antt` says when.
#![tactic(auto)]

mod laws;

pub use laws::mutants_are_told_apart;
