//! The places of the inputs that suites give have names; `specs/Laws.antt` states it.
#![tactic(auto)]

mod laws;

pub use laws::inputs_of_suites_are_named;
