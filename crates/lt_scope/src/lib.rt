//! Names in nested scopes, C11 6.2.1; `specs/Names.antt` says what a name stands for.
#![tactic(auto)]

mod scopes;

pub use scopes::{Frame, Scopes};
