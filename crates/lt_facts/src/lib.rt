//! What a program knows of the nodes of a unit, by their numbers; `specs/Numbers.antt`, `specs/Facts.antt` and `specs/Parameters.antt` say what that is.
#![tactic(auto)]

mod facts;
mod functions;
mod indices;
mod numbers;
mod outside;
mod types;

pub use facts::{constants, fact_indices, families, function_indices};
pub use functions::{Parameter, domains_are_known, parameters};
pub use numbers::own_numbers;
pub use types::{Family, families_are_kinds, type_families};
