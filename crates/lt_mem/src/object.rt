//! A living object.

ghost use Rattle.std.specs.Prelude.{◌≡◌, ◌+◌, ◌<◌, false, ◌≤◌, IfOk, All, map, length, slice_index_or};
ghost use Rattle.lt_model.specs.declared.cell.StoredCell.{StoredCell as Stored};
ghost use Rattle.lt_model.specs.Memory.{new_cell, first_content, held_at, as_type};
ghost use Rattle.lt_model.specs.Scalar.{convert_of};
ghost use Rattle.lt_mem.specs.Cells.{place_of, cells_with, IsFit, IsInteger, AllFit};
ghost use Rattle.lt_mem.specs.Image.{new_body};
ghost use Rattle.lt_mem.specs.Calls.{Becomes};
ghost use Rattle.lt_mem.specs.Steps.{stored_in, delivered};

use crate::lookup::{ascends, find, walk};
use lt_model::{CellType, Content, DataModel, Scalar, Shape, ShapeCell, StoredCell, Ub, convert};
use std::alloc::{AllocError, Global};
use std::marker::Model;

/// A living object. Contracts see its size, its cells and whether it may be written.
#[derive(Drop)]
pub(crate) struct Object {
    writable: bool,
    size: u64,
    cells: Vec<StoredCell>,
    // Whether the offsets ascend.
    ascending: bool,
    // How far the second cell is from the first: the size of the elements of an array of one scalar type.
    step: u64,
}

impl Model for Object {
    ghost use Rattle.std.specs.Prelude.{◌≡◌, true};
    ghost use Rattle.lt_mem.specs.Image.{Body};
    ghost use Rattle.lt_mem.specs.Cells.{IsAscending, AllFit};

    ghost Value = { Body };

    ghost view = { λ o. record { writable = o.writable; size = o.size; cells = o.cells.items } };

    ghost invariant = { λ o. (o.ascending ≡ true → IsAscending o.cells.items) × AllFit o.cells.items };
}

// What a cell holds before anything is stored into it.
fn first_content(zero: bool, ty: CellType) -> Content
    ensures is { result ≡ first_content zero ty }
    ensures fit { IsFit result }
{
    if zero {
        match ty {
            CellType::Num(_) => Content::Number(0),
            CellType::Pointer(_) => Content::Address(None),
        }
    } else {
        Content::Unset
    }
}

// The cells of a new object.
fn new_cells(alloc: Global, shape: &[ShapeCell], zero: bool) -> Result<Vec<StoredCell>, AllocError>
    ensures is { IfOk result (λ cells. cells.items ≡ map (new_cell zero) shape.now) }
{
    let mut cells = Vec::with_capacity(alloc, shape.len())?;
    for cell in shape {
        cells.push(StoredCell {
            offset: cell.offset,
            ty: cell.ty,
            holds: first_content(zero, cell.ty),
        })?;
    }
    Ok(cells)
}

// How far the second cell is from the first.
fn step_of(cells: &[StoredCell]) -> u64 {
    match cells {
        [first, second, ..] => second.offset.saturating_sub(first.offset),
        _ => 0,
    }
}

impl Object {
    /// An object of this shape whose cells hold zeros, or nothing.
    pub(crate) fn new(
        alloc: Global,
        shape: &Shape,
        zero: bool,
        writable: bool,
    ) -> Result<Object, AllocError>
        ensures { IfOk result (λ o. o ≡ new_body shape.now zero writable) }
    {
        let cells = new_cells(alloc, shape.cells.as_slice(), zero)?;
        let ascending = ascends(cells.as_slice());
        let step = step_of(cells.as_slice());
        Ok(Object {
            writable,
            size: shape.size,
            cells,
            ascending,
            step,
        })
    }

    pub(crate) fn len(&self) -> usize
        ensures { result ≡ length self.now.cells }
    {
        self.cells.len()
    }

    pub(crate) fn size(&self) -> u64
        ensures { result ≡ self.now.size }
    {
        self.size
    }

    pub(crate) fn is_writable(&self) -> bool
        ensures { result ≡ self.now.writable }
    {
        self.writable
    }

    /// The object isn't writable from now on.
    pub(crate) fn seal(&mut self)
        ensures { self.new ≡ record self.old { writable = false } }
    {
        self.writable = false;
    }

    /// The place of the first cell that an access of this type meets at an offset.
    pub(crate) fn place(&self, offset: u128, ty: CellType) -> Option<usize>
        ensures { result ≡ place_of self.now.cells offset ty }
    {
        let cells = self.cells.as_slice();
        if self.ascending {
            find(cells, self.step, offset, ty)
        } else {
            walk(cells, offset, ty)
        }
    }

    /// What the cell holds that an access of this type meets at an offset.
    pub(crate) fn held(&self, offset: u128, ty: CellType) -> Result<Content, Ub>
        ensures is { result ≡ held_at self.now.cells offset ty }
        ensures fit { IfOk result IsFit }
    {
        match self.place(offset, ty) {
            Some(place) => Ok(self.content(place)),
            None => Err(Ub::NoCell),
        }
    }

    /// Puts a content into the cell that an access of this type meets at an offset.
    pub(crate) fn store(
        &mut self,
        model: DataModel,
        offset: u128,
        ty: CellType,
        value: Content,
    ) -> Result<(), Ub>
        requires { IsFit value }
        ensures becomes { Becomes (stored_in model self.old offset ty value) self.old result self.new }
        ensures length { length self.new.cells ≡ length self.old.cells }
    {
        let Some(place) = self.place(offset, ty) else {
            return Err(Ub::NoCell);
        };
        if !self.writable {
            return Err(Ub::Sealed);
        }
        self.put(model, place, value);
        Ok(())
    }

    /// What the cell at a place holds.
    pub(crate) fn content(&self, place: usize) -> Content
        requires { place < length self.now.cells }
        ensures is { (d : Stored) → result ≡ (slice_index_or self.now.cells place d).holds }
        ensures fit { IsFit result }
    {
        self.cells[place].holds
    }

    /// Puts a content into the cell at a place, as a content of the cell's type.
    pub(crate) fn put(&mut self, model: DataModel, place: usize, held: Content)
        requires within { place < length self.old.cells }
        requires fit { IsFit held }
        ensures { self.new ≡ record self.old { cells = cells_with model self.old.cells place held } }
    {
        let cell = self.cells[place];
        self.cells[place] = StoredCell {
            offset: cell.offset,
            ty: cell.ty,
            holds: as_type(model, cell.ty, held),
        };
    }

    /// Puts what waits for each cell of a shape that begins at an offset into it.
    pub(crate) fn deliver(
        &mut self,
        model: DataModel,
        to: u64,
        shape: &[ShapeCell],
        waits: &[Content],
    )
        requires room { length self.old.cells ≤ length waits.now }
        requires fit { All IsFit waits.now }
        ensures cells { self.new ≡ record self.old { cells = delivered model self.old.cells to waits.now shape.now } }
        ensures length { length self.new.cells ≡ length self.old.cells }
    {
        for cell in shape {
            if let Some(place) = self.place(behind(to, cell.offset), cell.ty) {
                self.put(model, place, waits[place]);
            }
        }
    }
}

/// An offset behind another, which may pass 64 bits.
pub(crate) fn behind(base: u64, offset: u64) -> u128
    ensures { result ≡ base + offset }
{
    u128::from(base) + u128::from(offset)
}

/// A content as a cell or an access of this type has it: a number is converted.
pub(crate) fn as_type(model: DataModel, ty: CellType, held: Content) -> Content
    requires { IsFit held }
    ensures is { result ≡ as_type model ty held }
    ensures fit { IsFit result }
{
    match (ty, held) {
        (CellType::Num(to), Content::Number(z)) => Content::Number(converted(model, to, z)),
        _ => held,
    }
}

// A number that some integer type has, converted to a type.
fn converted(model: DataModel, to: Scalar, z: i128) -> i128
    requires { IsInteger z }
    ensures is { result ≡ convert_of model to z }
    ensures fit { IsInteger result }
{
    let from = if z < 0 { Scalar::LLong } else { Scalar::ULLong };
    convert(model, from, to, z)
}
