//! Which parts of a unit predicates may copy: `specs/Fitting.antt` says which.
#![tactic(auto)]

mod blocks;
mod copied;
mod fits;
mod tags;
mod walk;

pub use copied::copied_parts;
