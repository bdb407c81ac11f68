// Units with the marks of objectives are units of some text; `specs/Laws.antt` says when.
#![tactic(auto)]

mod laws;

pub use laws::{annotated_texts_are_of_units_alone, marked_units_are_well_made};
