//! What typing notes of expressions is of their nodes and is found by their numbers; `specs/Laws.antt` states it.
#![tactic(auto)]

mod laws;

pub use laws::{
    constants_stay, expressions_are_known, expressions_are_noted, operands_have_their_types,
    parts_are_come_to, parts_note_their_nodes,
};
