// New marks put at their places in a unit, and exact copies; `Marked.antt` of `lt_objectives` says what the unit with them is, `specs/NewMarks.antt` has marks as values.
#![tactic(auto)]

mod copy;
mod declaration;
mod declarator;
mod expression;
mod label;
mod new_mark;
mod place;
mod specifier;
mod statement;
mod unit;
mod walk;

pub use copy::copy_expression;
pub use new_mark::{Form, NewMark};
pub use unit::with_marks;
