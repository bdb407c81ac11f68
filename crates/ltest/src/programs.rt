//! The typed program of a unit.

ghost use Rattle.lt_tree.specs.UnitView.{unit_of};
ghost use Rattle.lt_answers.specs.Programs.{IsDerived};
ghost use Rattle.ltest.specs.Stages.{TypesUnit};

use crate::stops::TextStop;
use lt_answers::Refusal;
use lt_decl::Parsed;
use lt_env::TypeStop;
use lt_model::DataModel;
use lt_tree::typed::Program;
use lt_tree_laws::{nodes_are_numbered, nodes_have_spots};
use lt_unit::elaborate;
use std::alloc::Global;

/// The typed program of a unit, or the first rule that it breaks, with the byte at which the node begins that breaks it.
pub fn program_of_unit<'u>(
    alloc: Global,
    parsed: &'u Parsed,
    model: DataModel,
) -> Result<Program<'u>, TextStop>
    requires { IsDerived (unit_of parsed.now.unit) parsed.now.spots.items }
    ensures { TypesUnit model parsed.now result }
{
    nodes_have_spots();
    nodes_are_numbered();
    match elaborate(alloc, &parsed.unit, model) {
        Ok(program) => Ok(program),
        Err(TypeStop::Broken(rule, node)) => {
            let at = parsed.spots[node as usize];
            Err(TextStop::Refused(Refusal::Typing(rule.number(), at)))
        }
        Err(TypeStop::NoMemory) => Err(TextStop::NoMemory),
    }
}
