//! Code of expressions, emitted backwards; `specs/Emission.antt` says what is there of it, and `specs/Stands.antt` which code it is.
#![tactic(auto)]

mod accesses;
mod builder;
mod calm;
mod changes;
mod expression;
mod fate;
mod full;
mod operations;
mod pieces;
mod pure;
mod purity;
mod turning;

pub use builder::Builder;
pub use expression::mark;
pub use fate::Fate;
pub use full::{full_test, full_value};
pub use turning::turned_round;
