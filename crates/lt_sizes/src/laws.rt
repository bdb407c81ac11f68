//! Laws of the definitions; the functions do nothing.

ghost use Rattle.lt_sizes.specs.Laws.{FrugalGraphsAreBounded};
ghost use Rattle.lt_sizes.specs.Samples.{CostsAreWorkedOut};

/// A graph whose functions cost no more than their typed trees allow is within the bounds that the text of its unit gives.
pub fn frugal_graphs_are_bounded()
    ensures { FrugalGraphsAreBounded }
{}

/// What the codes of some functions cost at most is worked out.
pub fn costs_are_worked_out()
    ensures { CostsAreWorkedOut }
{}
