// Laws of the definitions: nothing to run.
ghost use Rattle.lt_elim.specs.Law.{DifferencePointsStaySmall, DifferencesAreWhole, DifferencesStaySmall, PointsSatisfy, RefutationsHaveLines};

/// On a difference system neither limit comes, and a point is whole.
pub fn differences_are_whole()
    ensures { DifferencesAreWhole }
{}

/// Constants that are kept of a difference system stay small.
pub fn differences_stay_small()
    ensures { DifferencesStaySmall }
{}

/// A point has a value for each variable, and makes every row true.
pub fn points_satisfy()
    ensures { PointsSatisfy }
{}

/// Where a system is refuted, lines refute it, and no whole numbers make all its rows true.
pub fn refutations_have_lines()
    ensures { RefutationsHaveLines }
{}

/// Values of a point of a difference system stay small.
pub fn difference_points_stay_small()
    ensures { DifferencePointsStaySmall }
{}
