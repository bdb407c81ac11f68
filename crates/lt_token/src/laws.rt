//! Laws of the definitions; the functions do nothing.

ghost use Rattle.lt_token.specs.Laws.{LiteralsAreThose, AtMostOneAnswer, AtMostOneReading, TokensAreSlices};

/// A text has at most one list of tokens, and at most one first refusal.
pub fn at_most_one_reading()
    ensures { AtMostOneReading }
{}

/// A text has at most one answer: its tokens, the first refusal, or the first token that nests too deeply.
pub fn at_most_one_answer()
    ensures { AtMostOneAnswer }
{}

/// The tokens of a text are slices of it, in order, and don't overlap.
pub fn tokens_are_slices()
    ensures { TokensAreSlices }
{}

/// The parts of strings and of character constants are what C11 6.4.4.4 and 6.4.5 write between quotes.
pub fn literals_are_those_of_c()
    ensures { LiteralsAreThose }
{}
