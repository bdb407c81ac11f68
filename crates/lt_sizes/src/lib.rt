// Lowered code is no larger than its text allows: `specs/Costs.antt` says what the code of a typed tree costs at most, `specs/Laws.antt` that this is
// within the bounds of the unit's text.
#![tactic(auto)]

mod laws;

pub use laws::{costs_are_worked_out, frugal_graphs_are_bounded};
