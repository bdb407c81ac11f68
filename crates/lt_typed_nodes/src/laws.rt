//! Laws of the typing of units; the functions do nothing.

ghost use Rattle.lt_typed_nodes.specs.Laws.{PartsNoteTheirNodes, ExpressionsAreNoted, FactsAreFound, BegunNodesAreNoted, ExpressionsAreKnown, ConstantsStay, ValuesHaveTheirTypes, OperandsHaveTheirTypes};
ghost use Rattle.lt_typed_nodes.specs.Coming.{OperandsAreComeTo, WhatIsComeToIsKnown};
ghost use Rattle.lt_typed_nodes.specs.ComingItems.{UnitsAreComeTo, ExternalsAreComeTo, DeclarationsAreComeTo, InitialisersAreComeTo, StatementsAreComeTo};

use lt_tree_laws::nodes_are_numbered;

/// Going over a part notes facts of its nodes alone.
pub fn parts_note_their_nodes()
    ensures { PartsNoteTheirNodes }
{}

/// What an expression was found to be is noted by the number of its node.
pub fn expressions_are_noted()
    ensures { ExpressionsAreNoted }
{}

/// A fact is found by its number; so the program of a unit knows what typing found at each expression.
pub fn expressions_are_known()
    ensures facts { FactsAreFound }
    ensures begun_nodes { BegunNodesAreNoted }
    ensures expressions { ExpressionsAreKnown }
{}

/// An expression that is a constant with its marks is so without them, as is noted of it.
pub fn constants_stay()
    ensures { ConstantsStay }
{}

/// Values have the types that are noted of the expressions, without marks around them, of which they are.
pub fn operands_have_their_types()
    ensures values { ValuesHaveTheirTypes }
    ensures operands { OperandsHaveTheirTypes }
{
    nodes_are_numbered();
}

/// Typing comes to the externals of a unit that has a program, and where it comes to a part it comes to those of which
/// that is made; the program knows what was found there.
pub fn parts_are_come_to()
    ensures units { UnitsAreComeTo }
    ensures externals { ExternalsAreComeTo }
    ensures declarations { DeclarationsAreComeTo }
    ensures initialisers { InitialisersAreComeTo }
    ensures statements { StatementsAreComeTo }
    ensures operands { OperandsAreComeTo }
    ensures known { WhatIsComeToIsKnown }
{
    nodes_are_numbered();
}
