//! Lowering: the graph of a typed program. `specs/Stands.antt` says which code each statement has, and `lt_code` what code is.
#![tactic(auto)]

mod flow;
mod function;
mod object;
mod program;

pub use program::lower;
