//! Nodes that name variables, and that one node follows.

ghost use Rattle.std.specs.Prelude.{◌≡◌};
ghost use Rattle.lt_mach.specs.Does.{IsPlaced};
ghost use Rattle.lt_mach.specs.Kinds.{kind_of, Places};

use crate::values::Done;
use lt_acts::{address_of, create, end, seal};
use lt_ir::Node;
use lt_mach_parts::{Registers, Scope};
use lt_mem::Memory;
use lt_model::Shape;
use std::alloc::Global;

/// A node that gives a variable's address, or begins, seals or ends one.
pub fn object(
    alloc: Global,
    scope: &mut Scope,
    memory: &mut Memory,
    registers: &mut Registers,
    locals: &[Shape],
    node: &Node,
) -> Done
    requires { kind_of node.now ≡ Places }
    ensures places { IsPlaced node.now locals.now result registers.old scope.old memory.old.blocks registers.new scope.new memory.new.blocks }
    ensures model { memory.new.model ≡ memory.old.model }
{
    match node {
        Node::Address { to, variable, next } => Done {
            answer: address_of(scope, memory, registers, *to, *variable),
            next: *next,
        },
        Node::Create {
            local,
            is_zeroed,
            next,
        } => Done {
            answer: create(alloc, scope, memory, locals, *local, *is_zeroed),
            next: *next,
        },
        Node::Seal { variable, next } => Done {
            answer: seal(scope, memory, *variable),
            next: *next,
        },
        Node::End { variable, next } => Done {
            answer: end(scope, memory, *variable),
            next: *next,
        },
        _ => unreachable!(),
    }
}
