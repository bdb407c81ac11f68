//! Where labels may stand, where expressions stand for their values, and where they begin without the marks around them;
//! `lt_objectives`' `specs/Places.antt` says what that is.
#![tactic(auto)]

mod open;
mod value;
mod walk;

pub use open::open_places;
pub use value::value_positions;
pub use walk::{core_number, value_part_number};
