//! Laws of the definitions; the functions do nothing.

ghost use Rattle.lt_tree.specs.Units.{ExpressionsAreOne};
ghost use Rattle.lt_expr.specs.Laws.{DerivedIsRead, ReadIsDerived};

/// What is read is derived by the grammar, with its spots.
pub fn read_is_derived()
    ensures { ReadIsDerived }
{}

/// What the grammar derives is read.
pub fn derived_is_read()
    ensures { DerivedIsRead }
{}

/// At most one expression stands at the front of a text.
pub fn at_most_one_expression()
    ensures { ExpressionsAreOne }
{}
