// Test objectives and the marks that stand for them, as definitions: `specs/Objectives.antt` has the table of criteria, `specs/Marked.antt` the unit
// with their marks.
#![tactic(auto)]

mod criteria;
mod laws;

pub use criteria::{Criteria, Criterion};
pub use laws::marks_are_erased;
