// Reads and writes coverage files; `specs/Coverage.antt` says what they are.
#![tactic(auto)]

mod covering;
mod draft;
mod fields;
mod laws;
mod names;
mod read;
mod records;
mod rows;
mod stops;
mod values;
mod words;
mod write;

pub use laws::{a_text_stands_for_one_table, what_is_written_is_read};
pub use read::read_cover;
pub use rows::{Coverage, HyperRow, HyperState, LabelRow, TestEnd, TestRow};
pub use stops::{CoverStop, MergeStop};
pub use words::end_word;
pub use write::write_cover;
