//! Typed trees made of their parts, whatever types the table has.

pub mod place;
pub mod statement;
pub mod value;
