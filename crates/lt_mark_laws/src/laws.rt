//! Laws of the definitions; the functions do nothing.

ghost use Rattle.lt_mark_laws.specs.Laws.{DifferencesAreExact, MarksChangeNothing, LabelsNoteTheirPredicates, ProgramsAreThemselves, TruthsAreTheSame};

/// A program with marks added has the same end, ticks, memory and other marks in each run.
pub fn marks_change_nothing()
    ensures { MarksChangeNothing }
{}

/// A label without bound names notes whether its predicate has a value that is true.
pub fn labels_note_their_predicates()
    ensures { LabelsNoteTheirPredicates }
{}

/// Predicates have the same truth in a program with marks added as without them.
pub fn truths_are_the_same()
    ensures { TruthsAreTheSame }
{}

/// Adding no marks leaves a program and a function as they are.
pub fn programs_are_themselves()
    ensures { ProgramsAreThemselves }
{}

/// A predicate that two pure integer expressions differ is true exactly where both have values of the type in which
/// they are compared and these differ.
pub fn differences_are_exact()
    ensures { DifferencesAreExact }
{}
