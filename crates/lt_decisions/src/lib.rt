// Where the decisions and the clauses of a unit stand, by the numbers of their cores; `lt_objectives`' `specs/Decisions.antt` says what they are.
#![tactic(auto)]

mod by_core;
mod turn;
mod walk;

pub use by_core::{clauses_by_core, decisions_by_core};
