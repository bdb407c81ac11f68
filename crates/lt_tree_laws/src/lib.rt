//! Laws and worked examples of the definitions of trees, their grammar, their canonical text and their types; `specs` states them.
#![tactic(auto)]

mod laws;

pub use laws::{
    declarations_are_written, expressions_are_read, expressions_are_typed, literals_spell_bytes,
    nodes_are_numbered, nodes_have_spots, operators_are_written, programs_are_typed,
    signs_are_read_back, statements_are_read, statements_are_written, strings_are_read_back,
    terminals_are_tokens, types_and_strings_are_written, units_are_read, units_are_typed,
    units_are_written,
};
