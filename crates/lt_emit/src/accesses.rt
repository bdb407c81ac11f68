// Pieces of code at accesses of scalars and structs.

ghost use Rattle.std.specs.Prelude.{◌≡◌, ◌+◌, ◌<◌, ◌^◌, IfOk, max};
ghost use Rattle.lt_code.specs.Code as code;
ghost use Rattle.lt_emit.specs.Emission.{GivesWithin, costs, HasPoint, TypedStands};
ghost use Rattle.lt_emit.specs.Accesses.{PutsShape, PutsAccess, IsThere, AccessStands, LateStands, AssignmentStands};

use crate::builder::Builder;
use lt_ir::{Access, Node, Parts};
use lt_tree::typed::{TypeId, Value};
use std::alloc::AllocError;

impl<'t> Builder<'t> {
    // The shape of a struct goes into the function's table; its place there. There are no more than 2^32: more end as want of memory does.
    fn shaped(&mut self, ty: TypeId) -> Result<u32, AllocError>
        ensures { IfOk result (PutsShape self.old self.new ty) }
    {
        let shape = self.site.tables.shape(self.alloc, ty)?;
        let Ok(place) = u32::try_from(self.structs.len()) else {
            return Err(AllocError);
        };
        self.structs.push(shape)?;
        Ok(place)
    }

    /// What an access of a type is to.
    pub fn access(&mut self, ty: TypeId) -> Result<Access, AllocError>
        ensures { IfOk result (PutsAccess self.old self.new ty) }
    {
        if self.site.tables.is_struct(ty) {
            Ok(Access::Struct(self.shaped(ty)?))
        } else {
            Ok(Access::Scalar(self.site.tables.cell_type(ty)))
        }
    }

    /// What is to be written at the address in a register is no pending write.
    pub fn target(
        &mut self,
        ty: TypeId,
        access: Access,
        register: u32,
        to: u32,
    ) -> Result<u32, AllocError>
        requires point { HasPoint self.old to }
        requires there { IsThere self.old access }
        ensures { GivesWithin self.old self.new result (costs 1 (register + 1)) (AccessStands (λ s t. code.target s t register) ty access to) }
    {
        self.clash(Parts::Target { register, access }, to)
    }

    // The cells of a struct are read, where the access is to one.
    fn reads_by(
        &mut self,
        ty: TypeId,
        access: Access,
        register: u32,
        to: u32,
    ) -> Result<u32, AllocError>
        requires point { HasPoint self.old to }
        requires there { IsThere self.old access }
        ensures { GivesWithin self.old self.new result (costs 1 (register + 1)) (AccessStands (λ s t. code.reads s t register) ty access to) }
    {
        match access {
            Access::Struct(_) => self.clash(Parts::Read { register, access }, to),
            Access::Scalar(_) => Ok(to),
        }
    }

    /// The cells of a struct are read where it is copied or passed on.
    pub fn reads(&mut self, ty: TypeId, register: u32, to: u32) -> Result<u32, AllocError>
        requires { HasPoint self.old to }
        ensures { GivesWithin self.old self.new result (costs 1 (register + 1)) (TypedStands (λ s t. code.reads s t register) ty to) }
    {
        let access = self.access(ty)?;
        self.reads_by(ty, access, register, to)
    }

    /// A value goes to the address in a register, and is there then.
    pub fn assigned(
        &mut self,
        ty: TypeId,
        access: Access,
        place: u32,
        value: u32,
        to: u32,
    ) -> Result<u32, AllocError>
        requires point { HasPoint self.old to }
        requires there { IsThere self.old access }
        ensures { GivesWithin self.old self.new result (costs 1 (max place value + 1)) (AccessStands (λ s t. code.up_to s value (code.assigned s t place value)) ty access to) }
    {
        match access {
            Access::Struct(shape) => self.emit(Node::Copy {
                place,
                from: value,
                shape,
                tracks: self.tracks,
                next: to,
            }),
            Access::Scalar(ty) => self.emit(Node::Store {
                place,
                value,
                gives: value,
                ty,
                tracks: self.tracks,
                next: to,
            }),
        }
    }

    /// The outermost conversion of an expression, where it was left.
    pub fn late(&mut self, v: &Value, register: u32, to: u32) -> Result<u32, AllocError>
        requires { HasPoint self.old to }
        ensures { GivesWithin self.old self.new result (costs 1 (register + 1)) (LateStands v.now register to) }
    {
        match v {
            Value::Convert(ty, how, _) => self.conversion(*how, *ty, register, to),
            _ => Ok(to),
        }
    }

    /// The value of an expression, behind a register, goes to the address in it.
    pub fn assignment(
        &mut self,
        ty: TypeId,
        v: &Value,
        register: u32,
        to: u32,
    ) -> Result<u32, AllocError>
        requires point { HasPoint self.old to }
        requires room { register + 4 < 2 ^ 32 }
        ensures { GivesWithin self.old self.new result (costs 5 (register + 2)) (AssignmentStands ty v.now register to) }
    {
        let access = self.access(ty)?;
        let stored = self.assigned(ty, access, register, register + 1, to)?;
        let converted = self.late(v, register + 1, stored)?;
        let aimed = self.target(ty, access, register, converted)?;
        let joined = self.clash(
            Parts::Unsequenced {
                left: register,
                right: register + 1,
            },
            aimed,
        )?;
        self.reads_by(ty, access, register + 1, joined)
    }
}
