//! Laws of the definitions; the functions do nothing.

ghost use Rattle.lt_label_counts.specs.Laws.{IdsNeverPass, TextsHaveFewNodes};

/// What the nodes of a unit outside of marks need is no more than its text has.
pub fn texts_have_few_nodes()
    ensures { TextsHaveFewNodes }
{}

/// The ids of the labels of criteria in a text of at most 4 MiB don't pass the greatest.
pub fn ids_never_pass()
    ensures { IdsNeverPass }
{}
