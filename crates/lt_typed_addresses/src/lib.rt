// What typed units hold from the start: `specs/Laws.antt` says what addresses that are.
#![tactic(auto)]

mod laws;

pub use laws::addresses_of_units_are_there;
