// Worked examples of objectives: small texts with the marks of each criterion, and the runs of some; `specs/MarkedTexts.antt` and
// `specs/MarkedRuns.antt` have the texts and what comes.
#![tactic(auto)]

mod laws;

pub use laws::{marked_texts_run, objectives_are_marked};
