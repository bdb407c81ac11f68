//! Laws of the definitions; the functions do nothing.

ghost use Rattle.lt_entry.specs.Laws.{LinesAreRead, SuiteLinesAreRead, TextsSayOneSpecification, TextsSayOneSuite};

/// What is read of words is the line of a specification that they write, and each line of its form is read.
pub fn lines_are_read()
    ensures { LinesAreRead }
{}

/// What is read of words is the line of a suite that they write, and each line of its form is read.
pub fn suite_lines_are_read()
    ensures { SuiteLinesAreRead }
{}

/// A text says at most one specification of a program, and where it says one, no line of it is bad.
pub fn a_text_says_one_specification()
    ensures { TextsSayOneSpecification }
{}

/// A text says at most one suite of a specification, and where it says one, no line of it is bad.
pub fn a_text_says_one_suite()
    ensures { TextsSayOneSuite }
{}
