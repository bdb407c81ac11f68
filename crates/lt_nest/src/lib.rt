//! The greatest nest of a text, however deep and long it is; specs/Greatest.antt says what it is.
#![tactic(auto)]

mod front;
mod greatest;
mod levels;
mod nesting;
mod skipping;
#[cfg(test)]
mod tests;
mod walk;

pub use greatest::greatest_nest;
