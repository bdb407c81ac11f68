//! Linear rows over the whole numbers and the lines that refute them; specs/Refutation.antt says when they do.
#![tactic(auto)]

mod adding;
mod derive;
mod desk;
mod growth;
mod known;
mod line;
mod lines;
mod room;
mod row;
mod scratch;
mod terms;

pub use adding::{add_product, add_terms};
pub use line::Line;
pub use room::{Room, check_lines, reserve};
pub use row::{Row, System};
pub use terms::Terms;

#[cfg(test)]
mod tests;
