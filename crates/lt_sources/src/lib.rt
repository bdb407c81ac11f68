//! Reads the files of a command off a shelf, and puts its text; `lt_answers` says which files a command has and how reading them ends.
#![tactic(auto)]

mod putting;
mod reading;
mod sources;

pub use putting::put_text;
pub use reading::{read_file, read_sources};
pub use sources::Sources;
