//! What is known at a place of a unit, as its types are judged: names, objects, functions, labels, and expressions with their types;
//! `specs/Going.antt` says what going over a part of a unit gives.
#![tactic(auto)]

mod faults;
mod stop;
mod symbols;
mod typed;
pub mod values;
mod walker;

pub use faults::Faults;
pub use stop::TypeStop;
pub use symbols::{Bodies, Declarations, Labels, NameFrame, NameSet, Names, Objects};
pub use typed::{Form, Judged, Typed, Use};
pub use walker::Walker;
