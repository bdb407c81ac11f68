// Short pieces of code.

ghost use Rattle.std.specs.Prelude.{◌≡◌, ◌+◌, ◌<◌, ◌^◌, IfOk, length, max};
ghost use Rattle.lt_tree.specs.Typing.TypeRows.{type_in};
ghost use Rattle.lt_tree.specs.Typing.Types.{is_struct};
ghost use Rattle.lt_tree.specs.Typing.ValueView.{conversion_of, value_of};
ghost use Rattle.lt_ir.specs.declared.node.Node.TheVariants as node;
ghost use Rattle.lt_meaning.specs.Expressions.{cell_type};
ghost use Rattle.lt_code.specs.Pieces.{one};
ghost use Rattle.lt_code.specs.Code as code;
ghost use Rattle.lt_emit.specs.Turning.{parts_name};
ghost use Rattle.lt_emit.specs.Spending.{parts_need};
ghost use Rattle.lt_emit.specs.Emission.{counts_at, GivesWithin, costs, HasPoint, PieceStands, TypedStands, Branches};
ghost use Rattle.lt_emit.specs.Known.{IsOwn};
ghost use Rattle.lt_emit.specs.Entering.{EntersIf};
ghost use Rattle.lt_emit.specs.Stands.{CreateStands};

use crate::builder::Builder;
use crate::fate::Fate;
use lt_ir::{Access, How, Node, Parts, Variable};
use lt_model::Content;
use lt_tree::typed::{Conversion, TypeId, Value};
use std::alloc::AllocError;

/// There are registers behind this one. There are no more than 2^32: more end as want of memory does.
pub fn room(register: u32) -> Result<(), AllocError>
    ensures { IfOk result (λ _. register + 4 < 2 ^ 32) }
{
    if register < u32::MAX - 4 {
        Ok(())
    } else {
        Err(AllocError)
    }
}

/// There are registers behind so many.
pub fn room_for(register: u32, count: usize) -> Result<(), AllocError>
    ensures { IfOk result (λ _. register + count + 4 < 2 ^ 32) }
{
    let left = u32::MAX - register;
    if left > 4 && count < (left - 4) as usize {
        Ok(())
    } else {
        Err(AllocError)
    }
}

impl<'t> Builder<'t> {
    /// A clash node, where footprints are tracked.
    pub fn clash(&mut self, parts: Parts, to: u32) -> Result<u32, AllocError>
        requires point { HasPoint self.old to }
        requires names { parts_name (counts_at self.old) parts }
        ensures { GivesWithin self.old self.new result (costs 1 (parts_need parts)) (PieceStands (λ s. code.clash s parts) to) }
    {
        if self.tracks {
            self.emit(Node::Clash { parts, next: to })
        } else {
            Ok(to)
        }
    }

    /// A conversion of what a register has.
    pub fn conversion(
        &mut self,
        how: Conversion,
        ty: TypeId,
        register: u32,
        to: u32,
    ) -> Result<u32, AllocError>
        requires { HasPoint self.old to }
        ensures { GivesWithin self.old self.new result (costs 1 (register + 1)) (TypedStands (λ s t. code.conversion s (conversion_of how) t register) ty to) }
    {
        let how = match how {
            Conversion::ToInteger => How::ToInteger(self.site.tables.scalar(ty)),
            Conversion::ToTruth => How::ToTruth,
            Conversion::ToPointer => How::ToPointer,
            Conversion::ToNull => return self.replaced(register, Content::Address(None), to),
            Conversion::ToVoid => return self.replaced(register, Content::Unset, to),
        };
        self.emit(Node::Convert {
            to: register,
            from: register,
            how,
            next: to,
        })
    }

    /// Another content, with the footprint that was there.
    pub fn replaced(&mut self, register: u32, content: Content, to: u32) -> Result<u32, AllocError>
        requires { HasPoint self.old to }
        ensures { GivesWithin self.old self.new result (costs 1 (register + 1)) (PieceStands (λ s. code.up_to s register (code.replaced s register content)) to) }
    {
        self.emit(Node::Constant {
            to: register,
            content,
            is_kept: true,
            next: to,
        })
    }

    /// A content, with no footprint.
    pub fn constant(&mut self, register: u32, content: Content, to: u32) -> Result<u32, AllocError>
        requires { HasPoint self.old to }
        ensures { GivesWithin self.old self.new result (costs 1 (register + 1)) (PieceStands (λ s. code.up_to s register (code.constant s register content)) to) }
    {
        self.emit(Node::Constant {
            to: register,
            content,
            is_kept: false,
            next: to,
        })
    }

    /// What one register has goes to another, converted.
    pub fn converted(
        &mut self,
        register: u32,
        from: u32,
        how: How,
        to: u32,
    ) -> Result<u32, AllocError>
        requires { HasPoint self.old to }
        ensures { GivesWithin self.old self.new result (costs 1 (max register from + 1)) (PieceStands (λ s. code.up_to s register (one s.stands (node.Convert register from how))) to) }
    {
        self.emit(Node::Convert {
            to: register,
            from,
            how,
            next: to,
        })
    }

    /// The address of an object.
    pub fn address(&mut self, register: u32, number: u32, to: u32) -> Result<u32, AllocError>
        requires { HasPoint self.old to }
        ensures { GivesWithin self.old self.new result (costs 1 (register + 1)) (PieceStands (λ s. code.up_to s register (one s.stands (node.Address register (s.names.variable number)))) to) }
    {
        self.emit(Node::Address {
            to: register,
            variable: self.site.variable(number),
            next: to,
        })
    }

    /// The scalar that lies at the address in a register goes to another.
    pub fn load(&mut self, register: u32, from: u32, ty: TypeId, to: u32) -> Result<u32, AllocError>
        requires { HasPoint self.old to }
        ensures { GivesWithin self.old self.new result (costs 1 (max register from + 1)) (TypedStands (λ s t. code.up_to s register (one s.stands (node.Load register from (cell_type (code.program_in s) t) s.tracks))) ty to) }
    {
        self.emit(Node::Load {
            to: register,
            from,
            ty: self.site.tables.cell_type(ty),
            tracks: self.tracks,
            next: to,
        })
    }

    /// 1 or 0, with the footprint that was there.
    pub fn truth(&mut self, register: u32, holds: bool, to: u32) -> Result<u32, AllocError>
        requires { HasPoint self.old to }
        ensures { GivesWithin self.old self.new result (costs 1 (register + 1)) (PieceStands (λ s. code.up_to s register (code.truth s register holds)) to) }
    {
        let number = if holds { 1 } else { 0 };
        self.replaced(register, Content::Number(number), to)
    }

    /// A branch on what a register has.
    pub fn branch(&mut self, register: u32, on: u32, off: u32) -> Result<u32, AllocError>
        requires on { HasPoint self.old on }
        requires off { HasPoint self.old off }
        ensures { GivesWithin self.old self.new result (costs 1 (register + 1)) (Branches register on off) }
    {
        self.emit(Node::Branch {
            test: register,
            on,
            off,
        })
    }

    /// The lifetime of an object ends.
    pub fn end(&mut self, number: u32, to: u32) -> Result<u32, AllocError>
        requires { HasPoint self.old to }
        ensures { GivesWithin self.old self.new result (costs 1 0) (PieceStands (λ s. one s.stands (node.End (s.names.variable number))) to) }
    {
        self.emit(Node::End {
            variable: self.site.variable(number),
            next: to,
        })
    }

    /// An object has its only value from here on.
    pub fn seal(&mut self, number: u32, to: u32) -> Result<u32, AllocError>
        requires { HasPoint self.old to }
        ensures { GivesWithin self.old self.new result (costs 1 0) (PieceStands (λ s. one s.stands (node.Seal (s.names.variable number))) to) }
    {
        self.emit(Node::Seal {
            variable: self.site.variable(number),
            next: to,
        })
    }

    /// The lifetime of an object begins that the function's statements begin.
    pub fn create(&mut self, number: u32, is_zeroed: bool, to: u32) -> Result<u32, AllocError>
        requires { HasPoint self.old to }
        ensures code { GivesWithin self.old self.new result (costs 1 0) (CreateStands number is_zeroed to) }
        ensures enters { EntersIf (λ here. IsOwn here number) self.old self.new result }
    {
        match self.site.variable(number) {
            Variable::Local(local) => self.emit(Node::Create {
                local,
                is_zeroed,
                next: to,
            }),
            _ => Ok(to),
        }
    }
}
