// What a function's code has beside its nodes.

ghost use Rattle.std.specs.Prelude.{◌≡◌, ◌<◌, IfOk, length};
ghost use Rattle.lt_code.specs.Bodies.{parameters_of};
ghost use Rattle.lt_tables.specs.Views.{program_at, function_at};
ghost use Rattle.lt_emit.specs.Emission.{local_shapes};
ghost use Rattle.lt_lower.specs.Functions.{gives_back};

use lt_ir::{Given, Node};
use lt_model::{BlockIn, Sequence, Shape};
use lt_tables::Site;
use std::alloc::{AllocError, Global};

/// The first node gives the value in register 0 back, if there are registers.
pub fn give_back(nodes: &mut Vec<Node>, registers: u32)
    requires { 0 < length nodes.old.items }
    ensures { nodes.new.items ≡ gives_back registers nodes.old.items }
{
    if registers > 0 {
        if let Some(first) = nodes.get_mut(0) {
            *first = Node::Return {
                value: Given::Held(0),
            };
        }
    }
}

/// The parameters, by their names and shapes.
pub fn parameters_of(alloc: Global, site: &Site) -> Result<Vec<BlockIn>, AllocError>
    ensures { IfOk result (λ all. all.items ≡ parameters_of (program_at site.now.tables.now) (function_at site.now).parameters) }
{
    let mut all = Vec::new(alloc);
    'parameters: for number in &site.function.parameters {
        let name = site.tables.object_name(alloc, *number)?;
        let shape = site.tables.object_shape(alloc, *number)?;
        all.push(BlockIn { name, shape })?;
    }
    Ok(all)
}

/// The shapes of the objects that the statements begin. The last is that of no object: it never begins.
pub fn local_shapes(alloc: Global, site: &Site) -> Result<Vec<Shape>, AllocError>
    ensures { IfOk result (λ all. all.items ≡ local_shapes (program_at site.now.tables.now) (function_at site.now)) }
{
    let mut all = site.local_shapes(alloc)?;
    all.push(Shape {
        cells: Sequence::new(Vec::new(alloc)),
        size: 0,
    })?;
    Ok(all)
}
