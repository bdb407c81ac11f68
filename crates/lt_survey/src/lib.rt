//! What annotators ask of the nodes of a unit, and units with new marks: `specs/Survey.antt` and `specs/Marking.antt` say what that is.
#![tactic(auto)]

mod marking;
mod survey;

pub use marking::{Marked, marked_with, unmarked};
pub use survey::{Survey, survey_of};
