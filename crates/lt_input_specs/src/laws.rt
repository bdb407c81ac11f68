//! Laws of the definitions; the functions do nothing.

ghost use Rattle.lt_input_specs.specs.Laws.{SpecificationsAreBounded, DefaultsAreBounded};

/// A specification that a text says keeps its bounds, and its entry is a function with a body that may be one.
pub fn specifications_are_bounded()
    ensures { SpecificationsAreBounded }
{}

/// So does the default specification, and so is its entry.
pub fn defaults_are_bounded()
    ensures { DefaultsAreBounded }
{}
