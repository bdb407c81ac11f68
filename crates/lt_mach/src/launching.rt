//! How a run begins.

ghost use Rattle.std.specs.Prelude.{◌≡◌, [], IfOk};
ghost use Rattle.lt_model.specs.declared.scalar.DataModel.{DataModel as Numbers};
ghost use Rattle.lt_ir.specs.Starting.{start_statics, sets, started};
ghost use Rattle.lt_ir.specs.Graph.{names_in, shapes_in};
ghost use Rattle.lt_acts.specs.Placing.{Changes};
ghost use Rattle.lt_mach.specs.Blocks.{roots_from};
ghost use Rattle.lt_mach.specs.Launching.{IsNew, Launches, rest_started};

use crate::blocks::start_blocks;
use crate::finding::code_at;
use crate::flow::Flow;
use crate::machine::Machine;
use crate::parameters::begin_parameters;
use crate::roots::roots_of;
use crate::setting::set_all;
use crate::statics::{seal_statics, start_statics};
use lt_acts::Stop;
use lt_ir::{Code, Graph, Static};
use lt_mach_parts::{Bounds, Scope};
use lt_mem::Memory;
use lt_model::{End, Input};
use std::alloc::{AllocError, Global};

// The objects that are there from the start, which alone are in scope.
fn begin_statics(
    alloc: Global,
    scope: &mut Scope,
    memory: &mut Memory,
    list: &[Static],
) -> Result<(), Stop>
    ensures starts { Changes (start_statics memory.old.model 0 list.now) [] memory.old.blocks result scope.new memory.new.blocks }
    ensures model { memory.new.model ≡ memory.old.model }
{
    let mut statics = Bounds::new(alloc);
    let begun = start_statics(&mut statics, memory, list);
    *scope = Scope::new(alloc, statics)?;
    begun
}

// The input's cells are set, where its first object has this number.
fn set_cells(
    alloc: Global,
    scope: &Scope,
    memory: &mut Memory,
    graph: &Graph,
    code: &Code,
    input: &Input,
    first: u32,
) -> Result<(), Stop>
    ensures sets { Changes (sets memory.old.model graph.now.statics (names_in code.now.params) (shapes_in code.now.params) input.now.cells (roots_from first input.now.blocks)) scope.now memory.old.blocks result scope.now memory.new.blocks }
    ensures model { memory.new.model ≡ memory.old.model }
{
    let roots = roots_of(
        alloc,
        scope,
        code.params.as_slice(),
        first,
        input.blocks.as_slice(),
        graph.statics.as_slice(),
    )?;
    set_all(memory, &roots, input.cells.as_slice())
}

// What is there behind the input's objects, of which the first has this number.
fn start_rest(
    alloc: Global,
    scope: &mut Scope,
    memory: &mut Memory,
    graph: &Graph,
    code: &Code,
    input: &Input,
    first: u32,
) -> Result<(), Stop>
    ensures starts { (model : Numbers) → memory.old.model ≡ model → Changes (rest_started model graph.now code.now input.now (roots_from first input.now.blocks)) scope.old memory.old.blocks result scope.new memory.new.blocks }
    ensures model { memory.new.model ≡ memory.old.model }
{
    begin_parameters(scope, memory, code.params.as_slice(), true)?;
    set_cells(alloc, scope, memory, graph, code, input, first)?;
    seal_statics(scope, memory, graph.statics.as_slice())
}

// All that is there when the entry's body begins.
fn start(
    alloc: Global,
    scope: &mut Scope,
    memory: &mut Memory,
    graph: &Graph,
    code: &Code,
    input: &Input,
) -> Result<(), Stop>
    ensures starts { Changes (started memory.old.model graph.now.statics (names_in code.now.params) (shapes_in code.now.params) input.now) [] memory.old.blocks result scope.new memory.new.blocks }
    ensures model { memory.new.model ≡ memory.old.model }
{
    begin_statics(alloc, scope, memory, graph.statics.as_slice())?;
    let first = start_blocks(memory, input.blocks.as_slice())?;
    start_rest(alloc, scope, memory, graph, code, input, first)
}

impl<'a> Machine<'a> {
    /// The run of a function begins, or is over before its body does.
    pub fn launch(&mut self, graph: &Graph, entry: u32, input: &Input) -> Result<Flow, AllocError>
        requires { IsNew graph.now input.now self.old }
        ensures { IfOk result (λ flow. Launches graph.now entry input.now flow self.old self.new) }
    {
        let Some(code) = code_at(graph, entry) else {
            return Ok(Flow::Over(End::Stopped));
        };
        match start(
            self.alloc,
            &mut self.call.scope,
            &mut self.memory,
            graph,
            code,
            input,
        ) {
            Ok(()) => {
                self.start(entry, code)?;
                Ok(Flow::Goes)
            }
            Err(Stop::Over(fault)) => Ok(Flow::Over(fault.end())),
            Err(Stop::NoMemory) => Err(AllocError),
        }
    }
}
