//! How declarations, statements and units are read from left to right; specs/Reading.antt says what is read.
#![tactic(auto)]

mod control;
mod declaration;
mod external;
mod initialiser;
mod item;
mod laws;
mod marked;
mod names;
mod parse;
mod statement;
mod walk;

pub use laws::{at_most_one_unit, unit_derived_is_read, unit_read_is_derived};
pub use parse::{Parsed, parse_into_unit, parse_unit};
