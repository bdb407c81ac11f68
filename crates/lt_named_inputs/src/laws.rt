//! Laws of the inputs that suites give.

ghost use Rattle.lt_named_inputs.specs.Laws.{InputsOfSuitesAreNamed};

/// The places of the inputs that a suite gives have names.
pub fn inputs_of_suites_are_named()
    ensures { InputsOfSuitesAreNamed }
{}
