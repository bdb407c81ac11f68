//! Labels for combinations of the clauses of decisions; `specs/Combinations.antt` says of which criteria, and `lt_objectives`' `specs/Decisions.antt`
//! what the combinations are.
#![tactic(auto)]

mod annotation;
mod candidate;
mod combination;
mod predicates;
mod round;

pub use annotation::{annotate, annotate_further};
