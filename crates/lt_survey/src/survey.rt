ghost use Rattle.std.specs.Prelude.{IfOk};
ghost use Rattle.lt_tree.specs.UnitView.{unit_of};
ghost use Rattle.lt_tree.specs.Typing.ProgramView.{program_of};
ghost use Rattle.lt_survey.specs.Survey.{IsSurvey};

use lt_copies::copied_parts;
use lt_decisions::{clauses_by_core, decisions_by_core};
use lt_facts::{Family, constants, fact_indices, families, function_indices, own_numbers};
use lt_places::{open_places, value_positions};
use lt_sites::{Site, list_sites};
use lt_tree::Unit;
use lt_tree::typed::Program;
use std::alloc::{AllocError, Global};

/// What is known of the nodes of a unit, by their numbers.
#[derive(Drop)]
pub struct Survey<'u> {
    pub sites: Vec<Site<'u>>,
    /// Whether a label may stand there.
    pub open: Vec<bool>,
    /// Whether an expression stands for its value there.
    pub values: Vec<bool>,
    /// Whether predicates may copy the part that begins there.
    pub copied: Vec<bool>,
    /// Where the core of a decision is, what a new `pc_decide` stands around.
    pub decisions: Vec<Option<usize>>,
    /// The same of clauses.
    pub clauses: Vec<Option<usize>>,
    /// Of its type.
    pub families: Vec<Family>,
    /// The index of the function that is defined there, among those of the program.
    pub functions: Vec<Option<usize>>,
}

/// The survey of a unit, of which the program is, or of which it would be without the marks.
pub fn survey_of<'u>(
    alloc: Global,
    unit: &'u Unit,
    program: &Program<'_>,
) -> Result<Survey<'u>, AllocError>
    ensures { IfOk result (IsSurvey (unit_of unit.now) (program_of program.now)) }
{
    let sites = list_sites(alloc, unit)?;
    let own = list_sites(alloc, program.unit)?;
    let numbers = own_numbers(alloc, sites.as_slice(), own.as_slice())?;
    let facts = fact_indices(alloc, numbers.as_slice(), program)?;
    let constants = constants(alloc, facts.as_slice(), program)?;
    let open = open_places(alloc, sites.as_slice(), constants.as_slice())?;
    let values = value_positions(alloc, sites.as_slice())?;
    let copied = copied_parts(alloc, unit, sites.as_slice())?;
    let decisions = decisions_by_core(alloc, sites.as_slice())?;
    let clauses = clauses_by_core(alloc, sites.as_slice())?;
    let families = families(alloc, facts.as_slice(), program)?;
    let functions = function_indices(alloc, numbers.as_slice(), program)?;
    Ok(Survey {
        sites,
        open,
        values,
        copied,
        decisions,
        clauses,
        families,
        functions,
    })
}
