//! How expressions, and the types and declarators in them, are read from left to right; specs/Reading.antt says what is read.
#![tactic(auto)]

mod ahead;
mod declarator;
mod declaring;
mod entry;
mod expression;
mod found;
mod hide;
mod label;
mod laws;
mod literal;
mod mark;
mod members;
mod naming;
mod nodes;
mod operators;
mod parse;
mod parser;
mod pieces;
mod scope;
mod specifier;
mod stop;
mod symbol;
mod table;
mod type_words;
mod typedefs;
mod unary;
mod walk;
mod words;

pub use laws::{at_most_one_expression, derived_is_read, read_is_derived};
pub use naming::{Naming, naming_behind};
pub use parse::{Parsed, parse_expr, place_of};
pub use parser::{Parser, deeper};
pub use stop::ParseStop;
pub use symbol::Symbol;
pub use table::symbols_of;
pub use typedefs::Typedefs;
pub use walk::Walker;
