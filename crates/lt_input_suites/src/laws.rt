//! Laws of the definitions; the functions do nothing.

ghost use Rattle.lt_input_suites.specs.Laws.{TestsOfASuiteDiffer};

/// The tests of a suite that a text says have names that differ.
pub fn tests_of_a_suite_differ()
    ensures { TestsOfASuiteDiffer }
{}
