//! The code of a function.
mod ending;
mod parameters;
mod parts;

ghost use Rattle.std.specs.Prelude.{IfOk};
ghost use Rattle.lt_emit.specs.Emission.{GivesWithin, HasPoint};
ghost use Rattle.lt_emit.specs.Entering.{EntersIf};
ghost use Rattle.lt_lower.specs.Known.{AreKnownItems};
ghost use Rattle.lt_lower.specs.Functions.{body_cost, BodyStands, CodeStands, IsFinished, here_at};

use crate::flow::{Exits, items};
use ending::value_at_end;
use lt_emit::{Builder, turned_round};
use lt_ir::{Code, Given, Node};
use lt_model::{Name, Sequence};
use lt_tables::Site;
use parameters::{parameters_end, parameters_sealed};
use parts::{give_back, local_shapes, parameters_of};
use std::alloc::{AllocError, Global};

/// The code of a function, with its nodes turned round, so that the start is the first.
pub fn code<'t>(alloc: Global, site: &'t Site<'t>) -> Result<Code, AllocError>
    ensures { IfOk result (CodeStands (here_at site.now)) }
{
    let mut b = Builder::new(alloc, site)?;
    let start = body(&mut b)?;
    finished(b, start)
}

// The code of a body and of what is round it: that of the parameters, and the returns.
fn body(b: &mut Builder) -> Result<u32, AllocError>
    requires { HasPoint b.old 0 }
    ensures code { GivesWithin b.old b.new result body_cost BodyStands }
    ensures enters { EntersIf (λ here. AreKnownItems here here.function.body) b.old b.new result }
{
    let site = b.site;
    let back = parameters_end(b, 0)?;
    let value = Given::Fixed(value_at_end(b.alloc, site)?);
    let end = b.emit(Node::Return { value })?;
    let leaves = parameters_end(b, end)?;
    let exits = Exits {
        next: leaves,
        back,
        leaves,
        breaks: leaves,
        continues: leaves,
    };
    let first = items(b, site.function.body.as_slice(), exits)?;
    parameters_sealed(b, first)
}

// The nodes are turned round, and the value that is given back is that in register 0.
fn finished(b: Builder, start: u32) -> Result<Code, AllocError>
    requires { HasPoint b start }
    ensures { IfOk result (IsFinished b.entry start) }
{
    let alloc = b.alloc;
    let site = b.site;
    let Ok(last) = u32::try_from(b.nodes.len() - 1) else {
        return Err(AllocError);
    };
    let mut nodes = b.nodes;
    give_back(&mut nodes, b.registers);
    Ok(Code {
        name: Name::new(alloc, site.function.name.as_slice())?,
        params: Sequence::new(parameters_of(alloc, site)?),
        locals: Sequence::new(local_shapes(alloc, site)?),
        structs: Sequence::new(b.structs),
        registers: b.registers,
        nodes: Sequence::new(turned_round(nodes, last)),
        start: last - start,
    })
}
