//! The functions do nothing.

ghost use Rattle.lt_ranges.specs.Laws.{ProgramsAreInRange, LastingIdsHaveRows};
ghost use Rattle.lt_ranges.specs.Samples.{SamplesAreJudged};

/// All that stands in the typed program of a unit refers to what is there.
pub fn programs_are_in_range()
    ensures { ProgramsAreInRange }
{}

/// The type ids of a program that is the same, whatever types are added later, have rows in its table.
pub fn lasting_ids_have_rows()
    ensures { LastingIdsHaveRows }
{}

/// A few small programs, in range and not.
pub fn samples_are_judged()
    ensures { SamplesAreJudged }
{}
