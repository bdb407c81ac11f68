//! Laws and worked examples of the definitions; the functions do nothing.

ghost use Rattle.lt_tree_laws.specs.Laws.{NodesHaveSpots, SignsAreReadBack, StringsAreReadBack, LiteralsSpellBytes, TerminalsAreTokens};
ghost use Rattle.lt_tree_laws.specs.ReadForms.{PostfixesAreRead, PrefixesAreRead, ChoicesAndTextsAreRead, MarksAreRead, StatementsAreRead, DeclarationsAreRead};
ghost use Rattle.lt_tree_laws.specs.ReadTexts.{DifferencesGroupLeft, CommasJoin, ElseIsNearest, TypeWordsGather, DeclaratorsTurnInsideOut, InnerNamesHideTypes, TypesInParenthesesAreParameters};
ghost use Rattle.lt_tree_laws.specs.WrittenExpressions.{
  ParenthesesStandWhereNeeded,
  PrefixesKeepApart,
  OperandsStandBeforeTheirSuffixes,
  TypesStandInParentheses,
  StringsAreEscaped,
};
ghost use Rattle.lt_tree_laws.specs.WrittenDeclarations.{
  DeclaratorsReadFromTheirNames,
  DeclarationsAreWritten,
};
ghost use Rattle.lt_tree_laws.specs.WrittenStatements.{LoopsAreWritten, ChoicesAreWritten};
ghost use Rattle.lt_tree_laws.specs.WrittenUnits.{
  DecisionsAreMarked,
  RelationsAreMarked,
  BoundNamesAreWritten,
  DefinitionsAndUsesAreMarked,
  UnitsAreWritten,
};
ghost use Rattle.lt_tree_laws.specs.Typing.ExpressionExamples.{
  ConstantsHaveTheirTypes,
  NamesAreSought,
  PointersAreMovedAndCompared,
  IntegersAreConverted,
  AssignmentsFit,
  PartsAreFound,
};
ghost use Rattle.lt_tree_laws.specs.Typing.UnitExamples.{
  FirstRuleIsAnswered,
  NamesAreDeclaredOnce,
  FunctionsAgree,
  FilesAreTyped,
  TypesAreNamed,
  LengthsAreBounded,
  InitialisersFit,
  StatementsFit,
  CallsAreAnswered,
  MarksFit,
};
ghost use Rattle.lt_tree_laws.specs.Typing.ProgramExamples.{
  ConversionsAreWrittenOut,
  PlacesStayPlaces,
  CallsAndMarksStay,
  InitialisersAreSpread,
  ObjectsHaveCells,
};
ghost use Rattle.lt_tree_laws.specs.Typing.NodeNumbers.{PartsAreNumbered, BrokenNodesAreThere};

/// Each node of a unit has one spot.
pub fn nodes_have_spots()
    ensures { NodesHaveSpots }
{}

/// What a sign is written for is read from it: operators, assignments, storage classes and types.
pub fn signs_are_read_back()
    ensures { SignsAreReadBack }
{}

/// The grammar's terminals are the punctuators and keywords of C, and the names of marks.
pub fn terminals_are_tokens()
    ensures { TerminalsAreTokens }
{}

/// A string that is written is read as the same bytes.
pub fn strings_are_read_back()
    ensures { StringsAreReadBack }
{}

/// What a string literal spells are bytes.
pub fn literals_spell_bytes()
    ensures { LiteralsSpellBytes }
{}

/// Examples of operators and their parentheses.
pub fn operators_are_written()
    ensures parentheses { ParenthesesStandWhereNeeded }
    ensures prefixes { PrefixesKeepApart }
    ensures suffixes { OperandsStandBeforeTheirSuffixes }
{}

/// Examples of casts, `sizeof` and strings.
pub fn types_and_strings_are_written()
    ensures types { TypesStandInParentheses }
    ensures strings { StringsAreEscaped }
{}

/// Examples of declarators, specifiers, structs, enums and initialisers.
pub fn declarations_are_written()
    ensures declarators { DeclaratorsReadFromTheirNames }
    ensures declarations { DeclarationsAreWritten }
{}

/// Examples of loops, choices and labels.
pub fn statements_are_written()
    ensures loops { LoopsAreWritten }
    ensures choices { ChoicesAreWritten }
{}

/// Examples of marks and of whole units.
pub fn units_are_written()
    ensures decisions { DecisionsAreMarked }
    ensures relations { RelationsAreMarked }
    ensures bound_names { BoundNamesAreWritten }
    ensures definitions_and_uses { DefinitionsAndUsesAreMarked }
    ensures units { UnitsAreWritten }
{}

/// Examples of expressions that the grammar reads, each form of them once, with their spots.
pub fn expressions_are_read()
    ensures differences { DifferencesGroupLeft }
    ensures commas { CommasJoin }
    ensures postfixes { PostfixesAreRead }
    ensures prefixes { PrefixesAreRead }
    ensures choices_and_texts { ChoicesAndTextsAreRead }
    ensures marks { MarksAreRead }
{}

/// Examples of statements that the grammar reads, each form of them once, with their spots.
pub fn statements_are_read()
    ensures nearest_else { ElseIsNearest }
    ensures statements { StatementsAreRead }
{}

/// Examples of declarations and units that the grammar reads, with their spots.
pub fn units_are_read()
    ensures gathered_words { TypeWordsGather }
    ensures inside_out { DeclaratorsTurnInsideOut }
    ensures inner_names { InnerNamesHideTypes }
    ensures types_in_parentheses { TypesInParenthesesAreParameters }
    ensures declarations { DeclarationsAreRead }
{}

/// Examples of the types of expressions, and of rules that expressions break.
pub fn expressions_are_typed()
    ensures constants { ConstantsHaveTheirTypes }
    ensures names { NamesAreSought }
    ensures pointers { PointersAreMovedAndCompared }
    ensures integers { IntegersAreConverted }
    ensures assignments { AssignmentsFit }
    ensures parts { PartsAreFound }
{}

/// Examples of units that break a rule, each beside one that doesn't.
pub fn units_are_typed()
    ensures first_rule { FirstRuleIsAnswered }
    ensures names { NamesAreDeclaredOnce }
    ensures functions { FunctionsAgree }
    ensures files { FilesAreTyped }
    ensures types { TypesAreNamed }
    ensures lengths { LengthsAreBounded }
    ensures initialisers { InitialisersFit }
    ensures statements { StatementsFit }
    ensures calls { CallsAreAnswered }
    ensures marks { MarksFit }
{}

/// Examples of what typed programs hold.
pub fn programs_are_typed()
    ensures conversions { ConversionsAreWrittenOut }
    ensures places { PlacesStayPlaces }
    ensures calls_and_marks { CallsAndMarksStay }
    ensures spread { InitialisersAreSpread }
    ensures cells { ObjectsHaveCells }
{}

/// Typing gives to nodes the numbers of the walk from parent to child, so a rule is broken at a node of the unit.
pub fn nodes_are_numbered()
    ensures parts { PartsAreNumbered }
    ensures broken { BrokenNodesAreThere }
{}
