//! What is known of a unit's nodes stays when marks are added, and so do objectives; `specs/Laws.antt` and `specs/Objectives.antt` state it.
#![tactic(auto)]

mod laws;

pub use laws::{
    expressions_note_the_same, facts_are_found_by_either, marked_units_know_the_same,
    objectives_are_found_by_either, units_note_the_same,
};
