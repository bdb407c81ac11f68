// Worked runs of small texts; `specs/Samples.antt` and `specs/UsedValues.antt` have the texts and what comes.
#![tactic(auto)]

mod laws;

pub use laws::runs_are_worked_out;
