//! The laws by which at most one answer is due.

ghost use Rattle.lt_answers.specs.Laws.{Laws};

use lt_cover_laws::{merges_are_one, texts_stand_for_one_table};
use lt_decl::at_most_one_unit;
use lt_entry::{a_text_says_one_specification, a_text_says_one_suite};
use lt_replayed::a_suite_has_one_table;
use lt_token::{at_most_one_answer, at_most_one_reading};

/// What the parts of a command promise of their definitions.
pub fn parts_keep_laws()
    ensures { Laws }
{
    at_most_one_reading();
    at_most_one_answer();
    at_most_one_unit();
    a_text_says_one_specification();
    a_text_says_one_suite();
    texts_stand_for_one_table();
    merges_are_one();
    a_suite_has_one_table();
}
