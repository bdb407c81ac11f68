// What is marked is typed again: `specs/Placed.antt` and the files behind it say where marks may be added, `specs/Laws.antt` what typing makes of them.
#![tactic(auto)]

mod laws;

pub use laws::{
    expressions_are_typed_again, named_objects_are_known, others_are_typed_alike,
    predicates_are_made, pure_expressions_are_there, statements_are_typed_again,
    units_are_typed_again,
};
