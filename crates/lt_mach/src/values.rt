//! Nodes that work on registers and memory, and that one node follows.

ghost use Rattle.std.specs.Prelude.{◌≡◌, List};
ghost use Rattle.lt_model.specs.declared.cell.Shape.{Shape as HeldShape};
ghost use Rattle.lt_mach.specs.Does.{IsDone};
ghost use Rattle.lt_mach.specs.Kinds.{kind_of, Computes, Accesses};

use lt_acts::{
    Stop, apply_to, compare, constant, convert_to, copy, load, move_address, part, store, subtract,
};
use lt_ir::Node;
use lt_mach_parts::Registers;
use lt_mem::Memory;
use lt_model::{DataModel, Shape};
use std::alloc::Global;

/// How a node was done, and the one that follows it.
#[derive(Clone, Copy)]
pub struct Done {
    pub answer: Result<(), Stop>,
    pub next: u32,
}

/// A node that computes a value from registers.
pub fn compute(model: DataModel, memory: &Memory, registers: &mut Registers, node: &Node) -> Done
    requires kind { kind_of node.now ≡ Computes }
    requires model { memory.now.model ≡ model }
    ensures { (structs : List HeldShape) → IsDone node.now structs result registers.old memory.now registers.new memory.now }
{
    match node {
        Node::Constant {
            to,
            content,
            is_kept,
            next,
        } => {
            constant(registers, *to, *content, *is_kept);
            Done {
                answer: Ok(()),
                next: *next,
            }
        }
        Node::Move {
            to,
            pointer,
            by,
            next,
        } => Done {
            answer: move_address(memory, registers, *to, *pointer, *by),
            next: *next,
        },
        Node::Subtract {
            to,
            left,
            right,
            size,
            next,
        } => Done {
            answer: subtract(memory, registers, *to, *left, *right, *size),
            next: *next,
        },
        Node::Apply {
            to,
            left,
            right,
            op,
            ty,
            next,
        } => Done {
            answer: apply_to(model, registers, *to, *left, *right, *op, *ty),
            next: *next,
        },
        Node::Convert {
            to,
            from,
            how,
            next,
        } => Done {
            answer: convert_to(memory, registers, *to, *from, *how),
            next: *next,
        },
        Node::Compare {
            to,
            left,
            right,
            op,
            next,
        } => Done {
            answer: compare(memory, registers, *to, *left, *right, *op),
            next: *next,
        },
        _ => unreachable!(),
    }
}

/// A node that reads or changes memory, or footprints alone.
pub fn access(
    alloc: Global,
    memory: &mut Memory,
    registers: &mut Registers,
    structs: &[Shape],
    node: &Node,
) -> Done
    requires { kind_of node.now ≡ Accesses }
    ensures acts { IsDone node.now structs.now result registers.old memory.old registers.new memory.new }
    ensures model { memory.new.model ≡ memory.old.model }
{
    match node {
        Node::Load {
            to,
            from,
            ty,
            tracks,
            next,
        } => Done {
            answer: load(memory, registers, *to, *from, *ty, *tracks),
            next: *next,
        },
        Node::Store {
            place,
            value,
            gives,
            ty,
            tracks,
            next,
        } => Done {
            answer: store(memory, registers, *place, *value, *gives, *ty, *tracks),
            next: *next,
        },
        Node::Copy {
            place,
            from,
            shape,
            tracks,
            next,
        } => Done {
            answer: copy(
                alloc, memory, registers, structs, *place, *from, *shape, *tracks,
            ),
            next: *next,
        },
        Node::Clash { parts, next } => Done {
            answer: part(memory, registers, structs, *parts),
            next: *next,
        },
        _ => unreachable!(),
    }
}
