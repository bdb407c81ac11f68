//! Laws of the definitions; the functions do nothing.

ghost use Rattle.lt_code.specs.Laws.{GraphsRunAsTheirPrograms, GraphsRunInNoOtherWay, PredicatesAgree};
ghost use Rattle.lt_code.specs.Samples.{CodesAreWorkedOut, SizesAreWorkedOut};

/// A graph that has the code of a typed program runs as the program does, from each of its functions, on each input and with
/// each number of ticks.
pub fn graphs_run_as_their_programs()
    ensures { GraphsRunAsTheirPrograms }
{}

/// A graph that has the code of a typed program has no other runs.
pub fn graphs_run_in_no_other_way()
    ensures { GraphsRunInNoOtherWay }
{}

/// Predicates and bound expressions of marks have pure expressions of the graph that agree with them in each state.
pub fn predicates_agree()
    ensures { PredicatesAgree }
{}

/// The sizes of some functions are worked out.
pub fn sizes_are_worked_out()
    ensures { SizesAreWorkedOut }
{}

/// The codes of two functions stand in the nodes that are given for them, within their bounds and with their numbers in range.
pub fn codes_are_worked_out()
    ensures { CodesAreWorkedOut }
{}
