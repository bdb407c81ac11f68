//! Laws of the definitions; the functions do nothing.

ghost use Rattle.lt_tree.specs.Units.{UnitsAreOne};
ghost use Rattle.lt_decl.specs.Laws.{UnitDerivedIsRead, UnitReadIsDerived};

/// What is read is derived by the grammar, with its spots.
pub fn unit_read_is_derived()
    ensures { UnitReadIsDerived }
{}

/// What the grammar derives is read.
pub fn unit_derived_is_read()
    ensures { UnitDerivedIsRead }
{}

/// A text derives at most one unit.
pub fn at_most_one_unit()
    ensures { UnitsAreOne }
{}
