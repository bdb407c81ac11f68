//! From the ends of nodes to their spots; specs/Walk.antt says how.

mod declarator;
mod expression;
mod mark;
mod specifier;
mod walker;

pub use walker::Walker;
