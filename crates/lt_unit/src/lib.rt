//! Typed programs of units, C11 6.7 to 6.9: `lt_tree/specs/Typing/UnitTyping.antt` says what the typed program of a unit is, and which rule it breaks
//! first.
#![tactic(auto)]

mod around;
mod cases;
mod declaration;
mod declared;
mod external;
mod initialiser;
mod items;
mod listed;
mod listing;
mod optional;
mod program;
mod seen;
mod statement;

pub use external::elaborate;
