// The sizes of types and the offsets of members.

ghost use Rattle.std.specs.Prelude.{◌≡◌, IfOk, map, option_map};
ghost use Rattle.lt_model.specs.Layout.{no_members, placed_behind};
ghost use Rattle.lt_tree.specs.Typing.TypeRows.{type_in};
ghost use Rattle.lt_table.specs.StructTables.{extent_value, pairs_in};
ghost use Rattle.lt_tables.specs.TypeParts.{extent_among};
ghost use Rattle.lt_tables.specs.PartTypes.{types_of, structs_with, members_with, type_extent_in, placed_in};
ghost use Rattle.lt_tables.specs.Layouts.{AreLayoutsOf, pairs_of, members_among, size_with, size_of_extent, object_size, step_with, step_value};

use crate::layouts::Layouts;
use crate::parts::Parts;
use crate::parts::structs::extent_by;
use lt_table::{Extent, PlacedMember, member_offset, no_members, repeated, with_member};
use lt_tree::typed::{Member, StructType, TypeId};
use std::alloc::{AllocError, Global};

// Where a member stands behind others, and what is before the next.
#[derive(Clone, Copy)]
struct Step {
    offset: u64,
    after: Extent,
}

impl<'r> Parts<'r> {
    /// The sizes of the types and the places of the members of these structs.
    pub fn layouts(&self, alloc: Global, structs: &[StructType]) -> Result<Layouts, AllocError>
        ensures { IfOk result (AreLayoutsOf self.now.model (structs_with self.now structs.now) (types_of self.now)) }
    {
        let known = self.extents(alloc, structs)?;
        let sizes = self.sizes(alloc, &known)?;
        let members = self.members(alloc, &known, structs)?;
        let struct_sizes = struct_sizes(alloc, &known)?;
        Ok(Layouts {
            sizes,
            members,
            struct_sizes,
        })
    }

    // The sizes of the types, where the extents of structs are known.
    fn sizes(&self, alloc: Global, known: &[Option<Extent>]) -> Result<Vec<u64>, AllocError>
        ensures { IfOk result (λ sizes. sizes.items ≡ map (size_with self.now.model (extent_among known.now)) (types_of self.now)) }
    {
        let mut sizes = Vec::new(alloc);
        for parts in &self.list {
            sizes.push(size_of(extent_by(known, *parts)))?;
        }
        Ok(sizes)
    }

    // The members of structs with their offsets.
    fn members(
        &self,
        alloc: Global,
        known: &[Option<Extent>],
        structs: &[StructType],
    ) -> Result<Vec<Vec<PlacedMember>>, AllocError>
        ensures { IfOk result (λ all. map (λ l. pairs_of (types_of self.now) l.items) all.items ≡ map (λ it. pairs_in (placed_in self.now known.now it)) structs.now) }
    {
        let mut all = Vec::new(alloc);
        for it in structs {
            all.push(self.members_of(alloc, known, it)?)?;
        }
        Ok(all)
    }

    // The members of a struct with their offsets, up to the first that has no extent.
    fn members_of(
        &self,
        alloc: Global,
        known: &[Option<Extent>],
        it: &StructType,
    ) -> Result<Vec<PlacedMember>, AllocError>
        ensures { IfOk result (λ all. pairs_of (types_of self.now) all.items ≡ pairs_in (placed_in self.now known.now it.now)) }
    {
        match &it.members {
            None => Ok(Vec::new(alloc)),
            Some(members) => self.placed(alloc, known, members),
        }
    }

    // These members with their offsets, up to the first that has no extent.
    fn placed(
        &self,
        alloc: Global,
        known: &[Option<Extent>],
        members: &[Member],
    ) -> Result<Vec<PlacedMember>, AllocError>
        ensures { IfOk result (λ all. pairs_of (types_of self.now) all.items ≡ pairs_in (placed_behind (type_extent_in self.now known.now) no_members (members_with self.now members.now))) }
    {
        let mut all = Vec::new(alloc);
        let mut before = no_members();
        for member in members {
            let ty = member.ty;
            let Some(step) = self.step(known, before, ty) else {
                return Ok(all);
            };
            let offset = step.offset;
            all.push(PlacedMember { ty, offset })?;
            before = step.after;
        }
        Ok(all)
    }

    // Where a member of a type stands behind others, and what is before the next.
    fn step(&self, known: &[Option<Extent>], before: Extent, id: TypeId) -> Option<Step>
        ensures { option_map step_value result ≡ step_with self.now.model (extent_among known.now) (extent_value before) (type_in (types_of self.now) id) }
    {
        let extent = self.extent(known, id)?;
        let offset = member_offset(before, extent)?;
        let after = with_member(before, extent)?;
        Some(Step { offset, after })
    }
}

// The size of a type; 0 of one that has none.
fn size_of(extent: Option<Extent>) -> u64
    ensures { result ≡ size_of_extent (option_map extent_value extent) }
{
    match extent {
        None => 0,
        Some(extent) => extent.size,
    }
}

// The sizes of structs with these extents.
fn struct_sizes(alloc: Global, known: &[Option<Extent>]) -> Result<Vec<u64>, AllocError>
    ensures { IfOk result (λ sizes. sizes.items ≡ map (λ extent. object_size (option_map extent_value extent)) known.now) }
{
    let mut sizes = Vec::new(alloc);
    for extent in known {
        sizes.push(object_size(*extent))?;
    }
    Ok(sizes)
}

// The size of an object with this extent; 0 where there is none.
fn object_size(extent: Option<Extent>) -> u64
    ensures { result ≡ object_size (option_map extent_value extent) }
{
    match extent {
        None => 0,
        Some(extent) => size_of(repeated(extent, 1)),
    }
}
