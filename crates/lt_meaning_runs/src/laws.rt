//! The function does nothing.

ghost use Rattle.lt_meaning_runs.specs.Laws.{RunsAreWorkedOut};

/// A few runs, worked out from the definitions.
pub fn runs_are_worked_out()
    ensures { RunsAreWorkedOut }
{}
