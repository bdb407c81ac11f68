//! What the tokens of a C text are, and how deep they nest; specs/Tokens.antt and specs/Nest.antt say it.
#![tactic(auto)]

mod kind;
mod laws;
mod lexeme;
mod piece;
mod words;

pub use kind::Kind;
pub use laws::{
    at_most_one_answer, at_most_one_reading, literals_are_those_of_c, tokens_are_slices,
};
pub use lexeme::{Role, Sort, Step};
pub use piece::{Class, Form, Part};
pub use words::{
    is_among, is_assembler, is_attribute, is_keyword, is_no_identifier, is_skipped, is_unsupported,
};
