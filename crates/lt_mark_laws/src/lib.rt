// Marks change nothing: `specs/Added.antt` says what a typed program with marks added is, `specs/Laws.antt` how it runs.
#![tactic(auto)]

mod laws;

pub use laws::{
    differences_are_exact, labels_note_their_predicates, marks_change_nothing,
    programs_are_themselves, truths_are_the_same,
};
