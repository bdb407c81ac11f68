//! No value that is read is a pointer to a function; `specs/Laws.antt` states it.
#![tactic(auto)]

mod laws;

pub use laws::{no_fact_is_an_array_of_functions, no_test_is_a_pointer_to_a_function};
