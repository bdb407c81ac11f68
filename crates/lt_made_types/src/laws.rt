//! Laws of the types that typing makes; the functions call those on which they rest.

ghost use Rattle.lt_made_types.specs.Laws.{NoFactIsAnArrayOfFunctions, NoTestIsAPointerToAFunction};

use lt_typed_nodes::parts_are_come_to;

/// The program of a unit notes of no expression that it is an array of functions.
pub fn no_fact_is_an_array_of_functions()
    ensures { NoFactIsAnArrayOfFunctions }
{}

/// So the value of an expression that is read, as a test is, is no pointer to a function.
pub fn no_test_is_a_pointer_to_a_function()
    ensures { NoTestIsAPointerToAFunction }
{
    parts_are_come_to();
}
