//! Worked examples of the definitions; the functions do nothing.

ghost use Rattle.lt_entry.specs.Examples.{
  LinesAreCounted,
  TypesAreNamed,
  LinkedListsAreSpecified,
  LinkedListsAreTested,
  LinkedListsMeet,
  LinkedListsAreBuilt,
  RangesAreJudged,
  DefaultBlocksAreNamed,
  BlocksAreJudged,
  StubsAreJudged,
  RequirementsAreJudged,
  FaultsAreFound,
  FormsOfTargetsCount,
  ObjectsAreFreed,
  SuitesAreJudged,
  InputsAreJudged,
};

/// Lines and words of files, and type names.
pub fn words_are_read()
    ensures lines { LinesAreCounted }
    ensures types { TypesAreNamed }
{}

/// A specification, a suite and an input of a linked list.
pub fn linked_lists_are_built()
    ensures specified { LinkedListsAreSpecified }
    ensures tested { LinkedListsAreTested }
    ensures meets { LinkedListsMeet }
    ensures built { LinkedListsAreBuilt }
{}

/// Lines of specifications and suites, in their places and out of them.
pub fn lines_are_judged()
    ensures ranges { RangesAreJudged }
    ensures default_blocks { DefaultBlocksAreNamed }
    ensures blocks { BlocksAreJudged }
    ensures stubs { StubsAreJudged }
    ensures requirements { RequirementsAreJudged }
    ensures faults { FaultsAreFound }
    ensures forms { FormsOfTargetsCount }
    ensures suites { SuitesAreJudged }
{}

/// What a cell of an object may hold that a line frees, and what it holds first.
pub fn objects_are_freed()
    ensures { ObjectsAreFreed }
{}

/// Inputs that meet a specification, and some that break one thing of it.
pub fn inputs_are_judged()
    ensures { InputsAreJudged }
{}
