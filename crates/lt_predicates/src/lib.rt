//! The predicates of test objectives, as trees that lie in memory: `lt_objectives`'s `specs/Decisions.antt`, `specs/Mutants.antt` and
//! `specs/Objectives.antt` say what they are, and `specs/` what this crate adds.
#![tactic(auto)]

mod active;
mod clauses;
mod combinations;
mod copies;
mod differences;
mod domain;
mod hidden;
mod laws;

pub use active::active_clauses;
pub use clauses::{clause_list, has_few_clauses};
pub use combinations::{both_truths, conjunctions};
pub use differences::{
    differences_by_absolute, differences_by_arithmetic, differences_by_connector,
    differences_by_relation,
};
pub use domain::{Domain, domains};
pub use hidden::hides;
pub use laws::domains_are_of_types;
