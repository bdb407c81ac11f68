//! The walk over a unit that lists its nodes; `specs/Listed.antt` says how.

mod declaration;
mod declarator;
mod expression;
mod mark;
mod sites;
mod specifier;
mod statement;
mod unit;

pub use sites::Lister;
