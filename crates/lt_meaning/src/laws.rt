//! Laws of the definitions; the functions do nothing.

ghost use Rattle.lt_meaning.specs.Clashes.{FootprintsAreNeededForClashesAlone};

/// An expression in which nothing can clash gives the same value, end and state where footprints aren't tracked.
pub fn footprints_are_needed_for_clashes_alone()
    ensures { FootprintsAreNeededForClashesAlone }
{}
