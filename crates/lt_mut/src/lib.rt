//! Labels for mutants of expressions; `specs/Mutations.antt` says of which criteria, and `lt_objectives`' `specs/Mutants.antt` what the mutants are.
#![tactic(auto)]

mod annotation;
mod candidate;
mod mutation;
mod operands;
mod predicates;
mod round;

pub use annotation::{annotate, annotate_further};
