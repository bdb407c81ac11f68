//! Whole runs.

ghost use Rattle.std.specs.Prelude.{◌≡◌, IfOk};
ghost use Rattle.lt_mach.specs.Launching.{IsNew, Comes};
ghost use Rattle.lt_mach.specs.Promise.{RunsInto, RunsTo};

use crate::flow::Flow;
use crate::machine::Machine;
use crate::outcome::{Brief, Outcome};
use crate::watch::{MarkList, Watch};
use lt_ir::Graph;
use lt_model::{End, Input, Run};
use std::alloc::{AllocError, Global};

impl<'a> Machine<'a> {
    // The whole run of a function; a watch sees each mark that is made.
    fn run<W: Watch>(
        &mut self,
        graph: &Graph,
        entry: u32,
        input: &Input,
        watch: &mut W,
    ) -> Result<End, AllocError>
        requires { IsNew graph.now input.now self.old }
        ensures { IfOk result (λ end. Comes W.saw graph.now entry input.now end self.old self.new watch.old watch.new) }
    {
        match self.launch(graph, entry, input)? {
            Flow::Goes => self.finish(graph, watch),
            Flow::Over(end) => Ok(end),
        }
    }
}

/// The run of a function on an input, in which so many ticks may be spent; a watch sees each mark that is made. It stops for want of
/// memory alone.
pub fn run_into<W: Watch>(
    alloc: Global,
    graph: &Graph,
    entry: u32,
    input: &Input,
    steps: u64,
    watch: &mut W,
) -> Result<Brief, AllocError>
    ensures { IfOk result (λ brief. RunsInto W.saw graph.now entry input.now steps brief watch.old watch.new) }
{
    let mut machine = Machine::new(alloc, graph, input, steps)?;
    let end = machine.run(graph, entry, input, watch)?;
    Ok(Brief {
        end,
        ticks: steps.saturating_sub(machine.ticks),
        memory: machine.memory,
    })
}

/// The run of a function on an input, in which so many ticks may be spent. It stops for want of memory alone.
pub fn run(
    alloc: Global,
    graph: &Graph,
    entry: u32,
    input: &Input,
    steps: u64,
) -> Result<Outcome, AllocError>
    ensures { IfOk result (RunsTo graph.now entry input.now steps) }
{
    let mut list = MarkList::new(alloc);
    let brief = run_into(alloc, graph, entry, input, steps, &mut list)?;
    Ok(Outcome {
        run: Run {
            marks: list.into_marks(),
            end: brief.end,
            ticks: brief.ticks,
        },
        memory: brief.memory,
    })
}
