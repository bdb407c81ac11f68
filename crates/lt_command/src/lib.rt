// Reads the words of a command line; `specs/Plan.antt` says what they ask for.
#![tactic(auto)]

mod annotate;
mod commands;
mod criteria;
mod options;
mod parsing;
mod parts;
mod replay;
mod stops;
mod values;
mod words;

pub use commands::{Annotate, Command, Replay};
pub use stops::PlanStop;
pub use words::plan;

#[cfg(test)]
mod tests;
