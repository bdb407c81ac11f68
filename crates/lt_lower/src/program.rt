//! The graph of a program.

ghost use Rattle.std.specs.Prelude.{IfOk};
ghost use Rattle.lt_tree.specs.Typing.ProgramView.{program_of};
ghost use Rattle.lt_code.specs.Bodies.{HasProgram};
ghost use Rattle.lt_code.specs.Bounds.{IsBoundedBy};
ghost use Rattle.lt_lower.specs.Functions.{CodeStands};
ghost use Rattle.lt_lower.specs.Programs.{CodesStand, here_for};

use crate::function::code;
use lt_ir::{Code, Graph};
use lt_model::Sequence;
use lt_sizes::frugal_graphs_are_bounded;
use lt_tables::{Site, Tables};
use lt_tree::typed::{Function, Program};
use std::alloc::{AllocError, Global};

/// A graph that has the code of a typed program. Want of memory is the only refusal; a code of more than 2^32 nodes or registers ends as
/// that does. The graph keeps the bounds that the text of the unit gives.
pub fn lower(alloc: Global, program: &Program) -> Result<Graph, AllocError>
    ensures code { IfOk result (HasProgram (program_of program.now)) }
    ensures bounds { IfOk result (IsBoundedBy (program_of program.now)) }
{
    frugal_graphs_are_bounded();
    let tables = Tables::new(alloc, program)?;
    let codes = codes(alloc, &tables)?;
    let statics = tables.statics(alloc)?;
    let labels = tables.labels(alloc)?;
    Ok(Graph {
        codes: Sequence::new(codes),
        statics: Sequence::new(statics),
        labels: Sequence::new(labels),
        stubs: Sequence::new(tables.stubs),
        model: program.model,
    })
}

// The codes of the functions with bodies, in their order.
fn codes<'t>(alloc: Global, tables: &'t Tables<'t>) -> Result<Vec<Code>, AllocError>
    ensures { IfOk result (λ all. CodesStand tables.now tables.now.program.now.functions.items all.items) }
{
    let mut all = Vec::new(alloc);
    'functions: for function in &tables.program.functions {
        all.push(function_code(alloc, tables, function)?)?;
    }
    Ok(all)
}

// The code of a function.
fn function_code<'t>(
    alloc: Global,
    tables: &'t Tables<'t>,
    function: &'t Function,
) -> Result<Code, AllocError>
    ensures { IfOk result (CodeStands (here_for tables.now function.now)) }
{
    let site = Site::new(alloc, tables, function)?;
    code(alloc, &site)
}
