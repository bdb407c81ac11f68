//! Laws of the definitions; the functions do nothing.

ghost use Rattle.lt_answers.specs.Laws.{OneAnswerIsDue};

/// At most one answer is due over the files of a command, by what the parts of the command promise of their definitions.
pub fn one_answer_is_due()
    ensures { OneAnswerIsDue }
{}
