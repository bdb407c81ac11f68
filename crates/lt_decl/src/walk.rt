//! From the ends of nodes to their spots; specs/Walk.antt says how.

mod declaration;
mod statement;
mod unit;

pub(crate) use unit::unit;
