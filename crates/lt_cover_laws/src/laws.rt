//! Laws of the definitions; the functions do nothing.

ghost use Rattle.lt_cover_laws.specs.Laws.{TextsStandForOneTable, MergesAreOne, MergesAreThereHoweverGrouped};

/// A text stands for at most one table, and where it stands for one no row of it breaks the grammar.
pub fn texts_stand_for_one_table()
    ensures { TextsStandForOneTable }
{}

/// Two tables have at most one least label, hyperlabel or test on which they don't agree, and none where they have a merge.
pub fn merges_are_one()
    ensures { MergesAreOne }
{}

/// Where three tables in order have a merge in one grouping, they have it in the other, too.
pub fn merges_are_there_however_grouped()
    ensures { MergesAreThereHoweverGrouped }
{}
