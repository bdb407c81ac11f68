//! What compound assignments, `++` and `--` make of the value that lies there, C11 6.5.2.4, 6.5.3.1 and 6.5.16.2.

ghost use Rattle.std.specs.Prelude.{◌≡◌, ◌+◌, ◌<◌, ◌≤◌, ◌^◌, max};
ghost use Rattle.lt_code.specs.Code as code;
ghost use Rattle.lt_emit.specs.Emission.{GivesWithin, costs, HasPoint, TypedStands};
ghost use Rattle.lt_emit.specs.Operators.{change_nodes, modified, changed};

use crate::builder::Builder;
use lt_ir::{Access, How, Movement, Node, Parts};
use lt_model::{Op, Scalar};
use lt_tree::typed::{Conversion, TypeId};
use std::alloc::AllocError;

/// The operator, between the value that lies there and the right operand.
#[derive(Clone, Copy)]
pub enum Change {
    /// Of integers, in this type.
    Computed(Op, Scalar),
    /// Of a pointer to elements of this size, and a number of them.
    Moved(Op, u64),
}

impl<'t> Builder<'t> {
    // The old value is behind the register, the right operand behind that, and the new value comes behind both.
    fn modified(
        &mut self,
        change: Change,
        ty: TypeId,
        register: u32,
        to: u32,
    ) -> Result<u32, AllocError>
        requires point { HasPoint self.old to }
        requires room { register + 4 < 2 ^ 32 }
        ensures { GivesWithin self.old self.new result (costs (change_nodes change) (register + 4)) (TypedStands (λ s t. modified change s t register) ty to) }
    {
        match change {
            Change::Computed(op, operands) => self.computed(op, operands, ty, register, to),
            Change::Moved(op, size) => self.emit(Node::Move {
                to: register + 3,
                pointer: register + 1,
                by: Movement::Elements {
                    count: register + 2,
                    op,
                    size,
                },
                next: to,
            }),
        }
    }

    // In the type of the operation, and back in the type of the lvalue.
    fn computed(
        &mut self,
        op: Op,
        operands: Scalar,
        ty: TypeId,
        register: u32,
        to: u32,
    ) -> Result<u32, AllocError>
        requires point { HasPoint self.old to }
        requires room { register + 4 < 2 ^ 32 }
        ensures { GivesWithin self.old self.new result (costs 3 (register + 4)) (TypedStands (λ s t. code.computed s t op operands register) ty to) }
    {
        let back = self.conversion(Conversion::ToInteger, ty, register + 3, to)?;
        let applied = self.emit(Node::Apply {
            to: register + 3,
            left: register + 3,
            right: register + 2,
            op,
            ty: operands,
            next: back,
        })?;
        self.converted(
            register + 3,
            register + 1,
            How::ToInteger(operands),
            applied,
        )
    }

    // A scalar goes to the address in a register, which then has what another has.
    fn stored(&mut self, ty: TypeId, register: u32, gives: u32, to: u32) -> Result<u32, AllocError>
        requires point { HasPoint self.old to }
        requires room { register + 4 < 2 ^ 32 }
        ensures { GivesWithin self.old self.new result (costs 1 (max (max register (register + 3)) gives + 1)) (TypedStands (λ s t. code.up_to s (register + 3) (code.scalar_stored s t register (register + 3) gives)) ty to) }
    {
        self.emit(Node::Store {
            place: register,
            value: register + 3,
            gives,
            ty: self.site.tables.cell_type(ty),
            tracks: self.tracks,
            next: to,
        })
    }

    // A scalar is to be written at the address in a register.
    fn aimed(&mut self, ty: TypeId, register: u32, to: u32) -> Result<u32, AllocError>
        requires { HasPoint self.old to }
        ensures { GivesWithin self.old self.new result (costs 1 (register + 1)) (TypedStands (λ s t. code.scalar_target s t register) ty to) }
    {
        let access = Access::Scalar(self.site.tables.cell_type(ty));
        self.clash(Parts::Target { register, access }, to)
    }

    /// The new value is made and stored at the address in a register, which then has what another has.
    pub fn changed(
        &mut self,
        change: Change,
        ty: TypeId,
        register: u32,
        gives: u32,
        to: u32,
    ) -> Result<u32, AllocError>
        requires point { HasPoint self.old to }
        requires room { register + 4 < 2 ^ 32 }
        ensures { GivesWithin self.old self.new result (costs (change_nodes change + 2) (max (register + 4) (gives + 1))) (TypedStands (λ s t. changed change s t register gives) ty to) }
    {
        let stored = self.stored(ty, register, gives, to)?;
        let modified = self.modified(change, ty, register, stored)?;
        self.aimed(ty, register, modified)
    }
}
