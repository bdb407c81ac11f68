//! The sizes of the types of a program and the offsets of the members of its structs.

ghost use Rattle.std.specs.Prelude.{◌≡◌, IfOk, slice_index_or};
ghost use Rattle.lt_tree.specs.Typing.TypeRows.{types_of_rows};
ghost use Rattle.lt_tree.specs.Typing.EntityView.{structs_of};
ghost use Rattle.lt_tables.specs.Layouts.{AreLayoutsOf, members_among};

use crate::parts::Parts;
use lt_table::PlacedMember;
use lt_tree::typed::{Program, TypeId};
use std::alloc::{AllocError, Global};

/// The sizes of types and the places of members.
#[derive(Drop)]
pub struct Layouts {
    /// By the places of types; 0 of what has no size.
    pub sizes: Vec<u64>,
    /// Of each struct its members with their offsets, up to the first that has no extent.
    pub members: Vec<Vec<PlacedMember>>,
    /// Of each struct; 0 of one that has no size.
    pub struct_sizes: Vec<u64>,
}

impl Layouts {
    /// The layouts of a program.
    pub fn new(alloc: Global, program: &Program<'_>) -> Result<Layouts, AllocError>
        ensures { IfOk result (AreLayoutsOf program.now.model (structs_of (types_of_rows program.now.table.items) program.now.structs.items) (types_of_rows program.now.table.items)) }
    {
        let parts = Parts::new(alloc, program.model, &program.table)?;
        let layouts = parts.layouts(alloc, &program.structs)?;
        Ok(layouts)
    }

    /// The size of a type; 0 of one that has none.
    pub fn size(&self, id: TypeId) -> u64
        ensures { result ≡ slice_index_or self.now.sizes.items id.place 0 }
    {
        match self.sizes.get(id.place as usize) {
            None => 0,
            Some(size) => *size,
        }
    }

    /// The size of a struct; 0 of one that has none.
    pub fn struct_size(&self, number: u32) -> u64
        ensures { result ≡ slice_index_or self.now.struct_sizes.items number 0 }
    {
        match self.struct_sizes.get(number as usize) {
            None => 0,
            Some(size) => *size,
        }
    }

    /// The members of a struct with their offsets, up to the first that has no extent.
    pub fn members(&self, number: u32) -> &[PlacedMember]
        ensures { result.now ≡ members_among self.now.members.items number }
    {
        match self.members.get(number as usize) {
            None => &[],
            Some(members) => members.as_slice(),
        }
    }
}
