//! The functions do nothing.

ghost use Rattle.lt_objective_rows.specs.MarkedTexts.{ObjectivesAreMarked};
ghost use Rattle.lt_objective_rows.specs.MarkedRuns.{MarkedTextsRun};

/// The marked text of a few units under each criterion.
pub fn objectives_are_marked()
    ensures { ObjectivesAreMarked }
{}

/// Which of their labels a few inputs cover.
pub fn marked_texts_run()
    ensures { MarkedTextsRun }
{}
