// Pieces of code behind operands.

ghost use Rattle.std.specs.Prelude.{◌≡◌, ◌+◌, ◌<◌, ◌^◌};
ghost use Rattle.lt_ir.specs.declared.node.Node.TheVariants as node;
ghost use Rattle.lt_ir.specs.declared.node.Movement.TheVariants.{Member};
ghost use Rattle.lt_tree.specs.Typing.ValueView.{side_of};
ghost use Rattle.lt_code.specs.Pieces.{one};
ghost use Rattle.lt_code.specs.Code as code;
ghost use Rattle.lt_emit.specs.Emission.{GivesWithin, costs, HasPoint, PieceStands, TypedStands};
ghost use Rattle.lt_emit.specs.Operators.{negated, complemented};

use crate::builder::Builder;
use crate::pure::all_ones;
use lt_ir::{Movement, Node};
use lt_model::{Content, Op};
use lt_tree::typed::{Side, TypeId};
use std::alloc::AllocError;

impl<'t> Builder<'t> {
    /// What a register has is subtracted from 0.
    pub fn negated(&mut self, ty: TypeId, register: u32, to: u32) -> Result<u32, AllocError>
        requires point { HasPoint self.old to }
        requires room { register + 4 < 2 ^ 32 }
        ensures { GivesWithin self.old self.new result (costs 2 (register + 2)) (TypedStands (λ s t. negated s t register) ty to) }
    {
        let applied = self.emit(Node::Apply {
            to: register,
            left: register + 1,
            right: register,
            op: Op::Sub,
            ty: self.site.tables.scalar(ty),
            next: to,
        })?;
        self.constant(register + 1, Content::Number(0), applied)
    }

    /// Each bit of what a register has is the other.
    pub fn complemented(&mut self, ty: TypeId, register: u32, to: u32) -> Result<u32, AllocError>
        requires point { HasPoint self.old to }
        requires room { register + 4 < 2 ^ 32 }
        ensures { GivesWithin self.old self.new result (costs 2 (register + 2)) (TypedStands (λ s t. complemented s t register) ty to) }
    {
        let ones = all_ones(self.site.tables, ty);
        let applied = self.emit(Node::Apply {
            to: register,
            left: register,
            right: register + 1,
            op: Op::Xor,
            ty: self.site.tables.scalar(ty),
            next: to,
        })?;
        self.constant(register + 1, ones, applied)
    }

    /// A pointer moves by a number of elements; they are in a register and the one behind it, in the order of the text.
    pub fn moved(
        &mut self,
        op: Op,
        size: u64,
        side: Side,
        register: u32,
        to: u32,
    ) -> Result<u32, AllocError>
        requires point { HasPoint self.old to }
        requires room { register + 4 < 2 ^ 32 }
        ensures { GivesWithin self.old self.new result (costs 1 (register + 2)) (PieceStands (λ s. code.up_to s (register + 1) (code.moved_by s register op size (side_of side))) to) }
    {
        let (pointer, count) = match side {
            Side::OnLeft => (register, register + 1),
            Side::OnRight => (register + 1, register),
        };
        self.emit(Node::Move {
            to: register,
            pointer,
            by: Movement::Elements { count, op, size },
            next: to,
        })
    }

    /// An address moves to a member.
    pub fn member(&mut self, register: u32, offset: u64, to: u32) -> Result<u32, AllocError>
        requires { HasPoint self.old to }
        ensures { GivesWithin self.old self.new result (costs 1 (register + 1)) (PieceStands (λ s. code.up_to s register (one s.stands (node.Move register register (Member offset)))) to) }
    {
        self.emit(Node::Move {
            to: register,
            pointer: register,
            by: Movement::Member { offset },
            next: to,
        })
    }
}
