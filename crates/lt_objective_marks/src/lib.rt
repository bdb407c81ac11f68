// The marks of objectives stand where marks may be added: `specs/Settings.antt` says what is given, `specs/Laws.antt`, `specs/Units.antt`, `specs/Rounds.antt` and `specs/Mutants.antt` what holds.
#![tactic(auto)]

mod laws;

pub use laws::{
    first_programs_know_as_much, marked_units_of_sets_run_as_they_did,
    marked_units_run_as_they_did, marked_units_tell_mutants_apart, objectives_are_added,
    objectives_are_added_to_expressions, rounds_run_as_they_did, rounds_tell_mutants_apart,
};
