//! What a replay is to do.

ghost use Rattle.lt_tree.specs.Typing.ProgramView.{program_of};
ghost use Rattle.lt_answers.specs.Programs.{IsProgram};
ghost use Rattle.lt_sources.specs.Views.{sources_of};
ghost use Rattle.ltest.specs.Tasks.{GivesTask};

use crate::coverages::old_coverage;
use crate::specifications::specification_of;
use crate::stops::TextStop;
use crate::suites::suite_of_text;
use lt_cover::Coverage;
use lt_entry::Suite;
use lt_input_names::Specification;
use lt_input_specs::{defaults_are_bounded, specifications_are_bounded};
use lt_input_suites::tests_of_a_suite_differ;
use lt_sources::Sources;
use lt_tree::typed::Program;
use std::alloc::Global;

/// A suite to be run, the specification of its entry, and the coverage with which that of the suite is merged.
#[derive(Drop)]
pub struct Task {
    pub specification: Specification,
    pub suite: Suite,
    pub old: Option<Coverage>,
}

/// What a replay is to do with a program, or the first reason why it can't be done.
pub fn task_of(alloc: Global, program: &Program<'_>, from: &Sources) -> Result<Task, TextStop>
    requires { IsProgram from.now.model from.now.file.items (program_of program.now) }
    ensures { GivesTask program.now (sources_of from.now) result }
{
    defaults_are_bounded();
    specifications_are_bounded();
    tests_of_a_suite_differ();
    let specification = specification_of(alloc, program, from)?;
    let suite = suite_of_text(alloc, program, &specification, from.suite.as_slice())?;
    let old = old_coverage(alloc, from)?;
    Ok(Task {
        specification,
        suite,
        old,
    })
}
