//! Laws of merges; the functions do nothing.

ghost use Rattle.lt_cover.specs.Coverage.Table.{Table, IsOrdered, IsTable};
ghost use Rattle.lt_cover.specs.Coverage.Merge.{IsMerge};

/// A merge is the same in either order.
pub fn merge_is_commutative()
    ensures { (a b m : Table) → IsMerge a b m → IsMerge b a m }
{}

/// A table merged with itself is that table.
pub fn merge_is_idempotent()
    ensures { (a : Table) → IsOrdered a → IsMerge a a a }
{}

/// A merge of two tables of coverage files is the table of a coverage file.
pub fn merge_is_a_table()
    ensures { (a b m : Table) → IsTable a → IsTable b → IsMerge a b m → IsTable m }
{}

/// Three tables have one merge, however they are grouped.
pub fn merge_is_associative()
    ensures { (a b c m n x : Table) → IsMerge a b m → IsMerge b c n → IsMerge m c x → IsMerge a n x }
{}
