//! Labels for functions, input domains, decisions and conditions. `specs/Criteria.antt` has the criteria; `lt_survey`'s `specs/Marking.antt` says what a
//! unit with their marks is.
#![tactic(auto)]

mod body;
mod node;
mod rounds;
mod truths;

pub use rounds::{annotate, annotate_further};
