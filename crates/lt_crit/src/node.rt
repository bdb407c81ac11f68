// The marks of one node.

ghost use Rattle.std.specs.Prelude.{◌≡◌, ◌≤◌, ◌+◌, Some, IfErr, OnOk, slice_get};
ghost use Rattle.lt_tree.specs.Tree as c;
ghost use Rattle.lt_tree.specs.UnitView.{external_of};
ghost use Rattle.lt_tree.specs.Nodes.{an_external, nodes};
ghost use Rattle.lt_tree.specs.Typing.ProgramView.{program_of};
ghost use Rattle.lt_objectives.specs.Objectives.{all_at, at_node, at_start};
ghost use Rattle.lt_sites.specs.Sites.{node_of};
ghost use Rattle.lt_facts.specs.Families.{type_families};
ghost use Rattle.lt_numbering.specs.Numbering.{Adds, IdsAreOut, most_id};
ghost use Rattle.lt_survey.specs.Survey.{IsSurvey};
ghost use Rattle.lt_survey.specs.Rounds.{site};
ghost use Rattle.lt_crit.specs.Criteria.{IsOneOfThem};
ghost use Rattle.lt_crit.specs.Known.{body_predicates};

use crate::body::body_predicates;
use crate::truths::{add_at_expression, place_at};
use lt_facts::Family;
use lt_numbering::{MarkStop, NewMarks};
use lt_objectives::Criterion;
use lt_placing::Form;
use lt_sites::NodeRef;
use lt_survey::Survey;
use lt_tree::External;
use lt_tree::typed::Program;
use std::alloc::Global;

/// The marks of a criterion at a node that has this number, with the families of the types of the program's table.
pub fn add_at_node(
    alloc: Global,
    survey: &Survey<'_>,
    program: &Program<'_>,
    types: &[Family],
    criterion: Criterion,
    number: usize,
    node: NodeRef<'_>,
    new: &mut NewMarks,
) -> Result<(), MarkStop>
    requires criterion { IsOneOfThem criterion }
    requires types { types.now ≡ type_families program.now }
    requires within { new.old.next ≤ most_id + 1 }
    ensures within { OnOk result (new.new.next ≤ most_id + 1) }
    ensures added { (unit : c.Unit) → IsSurvey unit (program_of program.now) survey.now → slice_get (nodes unit) number ≡ Some (node_of node.entry)
        → OnOk result (Adds new.old new.new (at_node unit (program_of program.now) criterion (site number (node_of node.entry)))) }
    ensures ids { (unit : c.Unit) → IsSurvey unit (program_of program.now) survey.now → slice_get (nodes unit) number ≡ Some (node_of node.entry)
        → IfErr result (IdsAreOut new.old (at_node unit (program_of program.now) criterion (site number (node_of node.entry)))) }
{
    match node {
        NodeRef::External(external) => add_at_external(
            alloc, survey, program, types, criterion, number, external, new,
        ),
        NodeRef::Expression(e) => add_at_expression(alloc, survey, criterion, number, e, new),
        _ => Ok(()),
    }
}

/// The marks of a criterion at a function that has this number; a declaration has none.
fn add_at_external(
    alloc: Global,
    survey: &Survey<'_>,
    program: &Program<'_>,
    types: &[Family],
    criterion: Criterion,
    number: usize,
    external: &External,
    new: &mut NewMarks,
) -> Result<(), MarkStop>
    requires types { types.now ≡ type_families program.now }
    requires within { new.old.next ≤ most_id + 1 }
    ensures within { OnOk result (new.new.next ≤ most_id + 1) }
    ensures added { (unit : c.Unit) → IsSurvey unit (program_of program.now) survey.now → slice_get (nodes unit) number ≡ Some (an_external (external_of external.now))
        → OnOk result (Adds new.old new.new (at_node unit (program_of program.now) criterion (site number (an_external (external_of external.now))))) }
    ensures ids { (unit : c.Unit) → IsSurvey unit (program_of program.now) survey.now → slice_get (nodes unit) number ≡ Some (an_external (external_of external.now))
        → IfErr result (IdsAreOut new.old (at_node unit (program_of program.now) criterion (site number (an_external (external_of external.now))))) }
{
    match external {
        External::Function(_) => {
            let function = place_at(&survey.functions, number);
            add_at_body(alloc, function, types, program, criterion, number, new)
        }
        External::Declaration(_) => Ok(()),
    }
}

/// The marks of a criterion at the start of the body of the function with this index, which has this number.
fn add_at_body(
    alloc: Global,
    function: Option<usize>,
    types: &[Family],
    program: &Program<'_>,
    criterion: Criterion,
    number: usize,
    new: &mut NewMarks,
) -> Result<(), MarkStop>
    requires types { types.now ≡ type_families program.now }
    requires within { new.old.next ≤ most_id + 1 }
    ensures within { OnOk result (new.new.next ≤ most_id + 1) }
    ensures added { OnOk result (Adds new.old new.new (all_at number at_start criterion (body_predicates (program_of program.now) criterion function))) }
    ensures ids { IfErr result (IdsAreOut new.old (all_at number at_start criterion (body_predicates (program_of program.now) criterion function))) }
{
    let predicates = body_predicates(alloc, criterion, function, types, program)?;
    new.add(alloc, number as u64, Form::AtStart, criterion, predicates)
}
