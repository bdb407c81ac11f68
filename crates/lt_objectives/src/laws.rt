//! The function does nothing.

ghost use Rattle.lt_objectives.specs.Laws.{MarksAreErased};

/// The erasure of a unit with the marks of objectives is that of the unit.
pub fn marks_are_erased()
    ensures { MarksAreErased }
{}
