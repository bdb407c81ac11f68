//! What is seen of the run of a test.

ghost use Rattle.std.specs.Prelude.{◌≡◌, IfOk};
ghost use Rattle.lt_entry.specs.Inputs.{IsBounded};
ghost use Rattle.lt_replayed.specs.Replayed.{has_ended};
ghost use Rattle.lt_replay.specs.Seen.{IsSeenRun, IsSeen};

use crate::marks::TrueMarks;
use lt_cover::TestEnd;
use lt_entry::Test;
use lt_input_values::{build, meets_by_maps};
use lt_ir::Graph;
use lt_mach::{Brief, run_into};
use lt_model::{End, Input, Spec};
use std::alloc::{AllocError, Global};
use std::collections::BTreeSet;

/// How a test is over, and the ids of the labels that it covers.
#[derive(Drop)]
pub struct Seen {
    pub end: TestEnd,
    pub covered: BTreeSet<u32>,
}

// Whether a run that is over so ended: it lacked no ticks, and came to neither too many calls nor too many cells.
fn has_ended(end: &End) -> bool
    ensures { result ≡ has_ended end.now }
{
    match end {
        End::Returned | End::Stopped | End::Undefined(_) | End::NoInput(_) => true,
        End::Steps | End::Deep | End::Cells => false,
    }
}

// What is seen of a run. One that didn't end covers nothing.
fn see_run(
    alloc: Global,
    graph: &Graph,
    entry: u32,
    input: &Input,
    steps: u64,
) -> Result<Seen, AllocError>
    ensures { IfOk result (IsSeenRun graph.now entry input.now steps) }
{
    let mut marks = TrueMarks::new(alloc);
    let Brief { end, .. } = run_into(alloc, graph, entry, input, steps, &mut marks)?;
    if has_ended(&end) {
        Ok(Seen {
            end: TestEnd::Ran(end),
            covered: marks.ids,
        })
    } else {
        Ok(Seen {
            end: TestEnd::Ran(end),
            covered: BTreeSet::new(alloc),
        })
    }
}

/// What is seen of a test. One whose input doesn't meet the specification isn't run.
pub fn see_test(
    alloc: Global,
    graph: &Graph,
    spec: &Spec,
    test: &Test,
    steps: u64,
) -> Result<Seen, AllocError>
    requires { IsBounded spec.now }
    ensures { IfOk result (IsSeen graph.now spec.now test.now steps) }
{
    let input = build(alloc, test, spec)?;
    if meets_by_maps(alloc, spec, &input)? {
        see_run(alloc, graph, spec.entry, &input, steps)
    } else {
        Ok(Seen {
            end: TestEnd::Outside,
            covered: BTreeSet::new(alloc),
        })
    }
}
