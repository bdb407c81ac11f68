// The outside: files by name and a sink of bytes, with their counts of faults; specs/Shelf.antt and specs/Sink.antt say
// what they mean, and specs/Memory.antt what contracts see of those in memory.
#![tactic(auto)]

mod clean_shelf;
mod clean_sink;
mod dir_shelf;
mod map_shelf;
mod named_files;
mod shelf;
mod sink;
mod std_sink;
mod vec_sink;

pub use clean_shelf::CleanShelf;
pub use clean_sink::CleanSink;
pub use dir_shelf::DirShelf;
pub use map_shelf::MapShelf;
pub use shelf::{ReadStop, Shelf, WriteStop};
pub use sink::{PutStop, Sink};
pub use std_sink::StdSink;
pub use vec_sink::VecSink;

#[cfg(test)]
mod tests;
