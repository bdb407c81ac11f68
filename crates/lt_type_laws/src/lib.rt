// Numbers of types change nothing: `specs/TypeLists.antt` says what a typed program with another list of types is, `specs/Laws.antt` how it runs.
#![tactic(auto)]

mod laws;

pub use laws::{
    accessed_types_change_nothing, known_types_are_listed, lists_have_numbers,
    other_types_change_nothing, programs_are_renumbered, types_are_renumbered,
    units_have_their_types,
};
