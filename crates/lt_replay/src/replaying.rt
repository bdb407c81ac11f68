//! The table of a suite.

ghost use Rattle.std.specs.Prelude.{◌≡◌, ◌<◌, [], IfOk, length};
ghost use Rattle.lt_tree.specs.Typing.ProgramView.{program_of};
ghost use Rattle.lt_entry.specs.Inputs.{IsBounded};
ghost use Rattle.lt_replayed.specs.Replayed.{IsCoverage, NamesDiffer};

use crate::draft::Draft;
use crate::order::in_order;
use crate::seen::see_test;
use lt_code::graphs_run_in_no_other_way;
use lt_cover::Coverage;
use lt_entry::Suite;
use lt_hyper::Hyper;
use lt_lower::lower;
use lt_model::Spec;
use lt_tree::typed::Program;
use std::alloc::{AllocError, Global};

/// How each test of a suite is over on the entry of a specification, with so many ticks a run, and the tests that cover each label, after
/// Bardin, Kosmatov and Cheynier. Marks are folded while a run goes, and none is stored. The specification is one of the
/// program. There are no hyperlabels yet.
pub fn replay(
    alloc: Global,
    program: &Program,
    spec: &Spec,
    suite: &Suite,
    hypers: &[Hyper],
    steps: u64,
) -> Result<Coverage, AllocError>
    requires entry { spec.now.entry < length (program_of program.now).functions }
    requires bounded { IsBounded spec.now }
    requires names { NamesDiffer suite.now.tests }
    requires none { hypers.now ≡ [] }
    ensures { IfOk result (IsCoverage (program_of program.now) spec.now suite.now steps) }
{
    graphs_run_in_no_other_way();
    let graph = lower(alloc, program)?;
    let order = in_order(alloc, suite.tests.as_slice())?;
    let mut draft = Draft::new(alloc, program.labels.as_slice())?;
    for test in &order {
        let seen = see_test(alloc, &graph, spec, test, steps)?;
        draft.add(alloc, test.name.as_slice(), seen)?;
    }
    draft.into_coverage(alloc)
}
