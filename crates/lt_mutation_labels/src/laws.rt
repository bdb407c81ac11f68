//! Laws of the definitions; the functions do nothing.

ghost use Rattle.lt_mutation_labels.specs.Laws.{MutantsAreToldApart};

use lt_mark_laws::{differences_are_exact, labels_note_their_predicates};

/// That a pure expression and its mutant differ is true, and noted by its label, exactly where both have a value and
/// the values differ.
pub fn mutants_are_told_apart()
    ensures { MutantsAreToldApart }
{
    differences_are_exact();
    labels_note_their_predicates();
}
