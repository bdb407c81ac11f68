// The cells and the size of an object of a type.

ghost use Rattle.std.specs.Prelude.{◌≡◌, ◌+◌, ◌*◌, ◌<◌, ◌++◌, List, unwrap_or, IfOk, OnOk};
ghost use Rattle.lt_model.specs.Layout.{within};
ghost use Rattle.lt_tree.specs.Typing.TypeRows.{type_in};
ghost use Rattle.lt_meaning.specs.Expressions.{shape, cell_type};
ghost use Rattle.lt_tree.specs.Typing.Types.{CType, Array, Struct};
ghost use Rattle.lt_tree.specs.Typing.Extents.{size_of};
ghost use Rattle.lt_tree.specs.Typing.Programs.{Program};
ghost use Rattle.lt_tables.specs.Layouts.{pairs_of};
ghost use Rattle.lt_tables.specs.Stretches.{members_cells, cells_left};
ghost use Rattle.lt_tables.specs.Apart.{all_cells, first_cells, struct_cells, behind_first, Came};
ghost use Rattle.lt_tables.specs.Views.{types_at, program_at};

use crate::tables::Tables;
use lt_model::{Sequence, Shape, ShapeCell};
use lt_table::PlacedMember;
use lt_tree::typed::{TypeId, TypeRow};
use std::alloc::{AllocError, Global};

/// Objects of a type that aren't taken apart yet: so many, one behind the other, from an offset on, where structs nest no deeper
/// than this.
#[derive(Clone, Copy)]
pub struct Stretch {
    pub ty: TypeId,
    pub offset: u64,
    pub count: u32,
    pub depth: usize,
}

impl<'p> Tables<'p> {
    /// The cells and the size of an object of a type.
    pub fn shape(&self, alloc: Global, id: TypeId) -> Result<Shape, AllocError>
        ensures { IfOk result (λ it. it ≡ shape (program_at self.now) (type_in (types_at self.now) id)) }
    {
        let depth = self.program.structs.len();
        let whole = Stretch {
            ty: id,
            offset: 0,
            count: 1,
            depth,
        };
        Ok(Shape {
            cells: Sequence::new(self.cells(alloc, whole)?),
            size: self.layouts.size(id),
        })
    }

    /// The cells and the size of an array of so many objects of a type.
    pub fn array_shape(&self, alloc: Global, id: TypeId, count: u32) -> Result<Shape, AllocError>
        ensures { IfOk result (λ it. it ≡ shape (program_at self.now) (Array (type_in (types_at self.now) id) count)) }
    {
        let depth = self.program.structs.len();
        let whole = Stretch {
            ty: id,
            offset: 0,
            count,
            depth,
        };
        let size = self.size(id);
        Ok(Shape {
            cells: Sequence::new(self.cells(alloc, whole)?),
            size: array_size(size, count),
        })
    }

    // The size of a type; 0 of one that has none.
    fn size(&self, id: TypeId) -> u64
        ensures { result ≡ size_of (program_at self.now).model (program_at self.now).structs (type_in (types_at self.now) id) }
    {
        self.layouts.size(id)
    }

    /// The cells and the size of an array of so many structs.
    pub fn struct_shape(&self, alloc: Global, number: u32, count: u32) -> Result<Shape, AllocError>
        ensures { IfOk result (λ it. it ≡ shape (program_at self.now) (Array (Struct number) count)) }
    {
        let size = self.layouts.struct_size(number);
        let members = self.layouts.members(number);
        let mut cells = Vec::new(alloc);
        for place in 0..count {
            self.put_struct(alloc, &mut cells, members, times(size, place)?)?;
        }
        Ok(Shape {
            cells: Sequence::new(cells),
            size: array_size(size, count),
        })
    }

    // The cells of a struct with these members at an offset go last.
    fn put_struct(
        &self,
        alloc: Global,
        cells: &mut Vec<ShapeCell>,
        members: &[PlacedMember],
        offset: u64,
    ) -> Result<(), AllocError>
        ensures { OnOk result (cells.new.items ≡ cells.old.items ++ struct_cells self.now members.now offset) }
    {
        let mut left = Vec::new(alloc);
        put_members(&mut left, members, offset, self.program.structs.len())?;
        self.take_all(cells, left)
    }

    // The cells of objects of a type.
    fn cells(&self, alloc: Global, whole: Stretch) -> Result<Vec<ShapeCell>, AllocError>
        ensures { IfOk result (λ cells. cells.items ≡ all_cells self.now whole) }
    {
        let mut cells = Vec::new(alloc);
        let mut left = Vec::new(alloc);
        left.push(whole)?;
        self.take_all(&mut cells, left)?;
        Ok(cells)
    }

    // The cells of these stretches go last. What is left to be taken apart stands on a stack, what comes first last; so types may
    // nest however deep. More than 2^64 steps end as want of memory does.
    fn take_all(
        &self,
        cells: &mut Vec<ShapeCell>,
        stretches: Vec<Stretch>,
    ) -> Result<(), AllocError>
        ensures { OnOk result (cells.new.items ≡ cells.old.items ++ cells_left (program_at self.now) (types_at self.now) stretches.items) }
    {
        let mut left = stretches;
        for _step in 0..u64::MAX {
            let Some(stretch) = left.pop() else {
                return Ok(());
            };
            self.take_apart(cells, &mut left, stretch)?;
        }
        Err(AllocError)
    }

    // The first object of a stretch is taken apart, those behind it are left.
    fn take_apart(
        &self,
        cells: &mut Vec<ShapeCell>,
        left: &mut Vec<Stretch>,
        stretch: Stretch,
    ) -> Result<(), AllocError>
        ensures { OnOk result (Came self.now cells.old.items left.old.items cells.new.items left.new.items (all_cells self.now stretch)) }
    {
        if stretch.count > 1 {
            left.push(self.behind_first(stretch)?)?;
            return self.open(cells, left, stretch);
        }
        match stretch.count {
            0 => Ok(()),
            _ => self.open(cells, left, stretch),
        }
    }

    // What is behind the first object of a stretch. An offset past 64 bits is behind more than 2^32 cells.
    fn behind_first(&self, stretch: Stretch) -> Result<Stretch, AllocError>
        requires { 0 < stretch.count }
        ensures { IfOk result (λ it. it ≡ behind_first self.now stretch) }
    {
        let offset = further(stretch.offset, self.layouts.size(stretch.ty))?;
        Ok(Stretch {
            offset,
            count: stretch.count - 1,
            ..stretch
        })
    }

    // The first object of a stretch: its cell, or the parts of which it is made.
    fn open(
        &self,
        cells: &mut Vec<ShapeCell>,
        left: &mut Vec<Stretch>,
        stretch: Stretch,
    ) -> Result<(), AllocError>
        ensures { OnOk result (Came self.now cells.old.items left.old.items cells.new.items left.new.items (first_cells self.now stretch)) }
    {
        match self.program.table.get(stretch.ty.place as usize) {
            None => Ok(()),
            Some(row) => match row {
                TypeRow::Num(_) => Ok(cells.push(self.cell(stretch))?),
                TypeRow::Pointer(_) => Ok(cells.push(self.cell(stretch))?),
                TypeRow::Array(ty, count) => Ok(left.push(Stretch {
                    ty: *ty,
                    count: *count,
                    ..stretch
                })?),
                TypeRow::Struct(number) => {
                    let members = self.layouts.members(*number);
                    put_members(left, members, stretch.offset, stretch.depth)
                }
                TypeRow::Qualified(_, ty) => Ok(left.push(Stretch {
                    ty: *ty,
                    count: 1,
                    ..stretch
                })?),
                TypeRow::Void => Ok(()),
                TypeRow::Function(_) => Ok(()),
                TypeRow::Floating => Ok(()),
            },
        }
    }

    // The cell of a scalar at the offset of a stretch.
    fn cell(&self, stretch: Stretch) -> ShapeCell
        ensures { result ≡ record { offset = stretch.offset; ty = cell_type (program_at self.now) (type_in (types_at self.now) stretch.ty) } }
    {
        ShapeCell {
            offset: stretch.offset,
            ty: self.facts(stretch.ty).cell,
        }
    }
}

// The members of a struct at an offset, where structs nest so deep; the first comes last.
fn put_members(
    left: &mut Vec<Stretch>,
    members: &[PlacedMember],
    offset: u64,
    depth: usize,
) -> Result<(), AllocError>
    ensures { OnOk result ((program : Program) (types : List CType) → cells_left program types left.new.items ≡ members_cells program depth (pairs_of types members.now) offset ++ cells_left program types left.old.items) }
{
    if depth == 0 {
        return Ok(());
    }
    let mut place = members.len();
    'members: while 0 < place {
        place -= 1;
        left.push(member_stretch(members[place], offset, depth - 1)?)?;
    }
    Ok(())
}

// A member of a struct at an offset.
fn member_stretch(member: PlacedMember, offset: u64, depth: usize) -> Result<Stretch, AllocError>
    ensures { IfOk result (λ it. it ≡ record { ty = member.ty; offset = offset + member.offset; count = 1; depth = depth }) }
{
    Ok(Stretch {
        ty: member.ty,
        offset: further(offset, member.offset)?,
        count: 1,
        depth,
    })
}

// An offset further on. One past 64 bits is behind more than 2^32 cells.
fn further(offset: u64, by: u64) -> Result<u64, AllocError>
    ensures { IfOk result (λ it. it ≡ offset + by) }
{
    offset.checked_add(by).ok_or(AllocError)
}

// An offset behind so many objects of a size. One past 64 bits is behind more than 2^32 cells.
fn times(size: u64, count: u32) -> Result<u64, AllocError>
    ensures { IfOk result (λ it. it ≡ size * count) }
{
    size.checked_mul(u64::from(count)).ok_or(AllocError)
}

// The size of so many objects of a size, one behind the other; 0 where it doesn't fit 64 bits.
fn array_size(size: u64, count: u32) -> u64
    ensures { result ≡ unwrap_or (within (size * count)) 0 }
{
    match size.checked_mul(u64::from(count)) {
        None => 0,
        Some(size) => size,
    }
}
