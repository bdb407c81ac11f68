//! The law; the function does nothing.

ghost use Rattle.lt_greater_ids.specs.Laws.{GreaterIdsChangeNothing};

/// A unit has the same program where its labels may have greater ids.
pub fn greater_ids_change_nothing()
    ensures { GreaterIdsChangeNothing }
{}
