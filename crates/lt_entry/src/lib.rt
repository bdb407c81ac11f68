// What the files of an entry say: specifications, suites and inputs, and the reading of their lines; `specs/Lib.antt` names the definitions in the order of the files.
#![tactic(auto)]

mod examples;
mod laws;
mod number;
mod place;
mod row;
mod specification_line;
mod suite_line;
mod test;
mod words;

pub use examples::{
    inputs_are_judged, lines_are_judged, linked_lists_are_built, objects_are_freed, words_are_read,
};
pub use laws::{
    a_text_says_one_specification, a_text_says_one_suite, lines_are_read, suite_lines_are_read,
};
pub use number::{Numeral, numeral_of};
pub use place::{
    PlaceWord, Step, TargetWord, place_of, single_place_of, single_target_of, target_of,
};
pub use row::{Row, count_of_lines, rows_of};
pub use specification_line::{
    Addend, BlockLine, Line, PointsLine, RangeLine, Relation, RequireLine, StubLine, Term, line_of,
};
pub use suite_line::{PointLine, SetLine, SuiteLine, ValuesLine, suite_line_of};
pub use test::{Suite, Test};
