//! Laws of the definitions; the functions do nothing.

ghost use Rattle.lt_erased_typing.specs.Examples.{MarksHideOperands, MarksShowRegisters};
ghost use Rattle.lt_erased_typing.specs.Laws.{CopiesWithLiteralsCanBeErased, LiteralsAreTypedWithoutMarks, OperandsWithLiteralsKeepTheirTypes, PlainExpressionsCanBeErased, TruthsAreTypedAsValues};

/// A pure expression is typed without its marks where it is typed with them, if they hide nothing from an operator, and the
/// objects of which names are in scope are known; so are operands. Marks can be taken off expressions that predicates copy,
/// where these are typed, whatever marks stand in them.
pub fn literals_are_typed_without_marks()
    ensures whole { LiteralsAreTypedWithoutMarks }
    ensures operands { OperandsWithLiteralsKeepTheirTypes }
    ensures copies { CopiesWithLiteralsCanBeErased }
{}

/// An expression that isn't behind marks is typed alike where its truth or its value is used.
pub fn truths_are_typed_as_values()
    ensures { TruthsAreTypedAsValues }
{}

/// Marks can be taken off expressions that show by their text that marks hide nothing.
pub fn plain_expressions_can_be_erased()
    ensures { PlainExpressionsCanBeErased }
{}

/// Texts that are typed with marks, and not without them, or with another type.
pub fn marks_hide_operands()
    ensures { MarksHideOperands }
{}

/// A text in which the address of an element of a `register` array is taken is refused with marks too.
pub fn marks_show_registers()
    ensures { MarksShowRegisters }
{}
