//! Objects and their parts.

use crate::block::ElementType;
use lt_model::Place;

/// The type of an object or of a part of it: an array of so many elements, or the type itself.
#[derive(Clone, Copy)]
pub struct PartType {
    pub(crate) element: ElementType,
    pub(crate) count: Option<u32>,
}

/// A part of an object that files name.
#[derive(Drop)]
pub struct Part {
    pub place: Place,
    pub ty: PartType,
}

/// An array: the type of its elements, and how many there are.
#[derive(Clone, Copy)]
pub(crate) struct ArrayType {
    pub element: ElementType,
    pub count: u32,
}

/// Parts of an object that are of one type, by the bytes at which they begin.
#[derive(Drop)]
pub(crate) struct Pieces {
    pub ty: PartType,
    pub offsets: Vec<u64>,
}

/// Where a step leads within a part: to parts of one type, the first of which begins at this byte, so many bytes apart.
#[derive(Clone, Copy)]
pub(crate) struct Stride {
    pub ty: PartType,
    pub start: u64,
    pub apart: u64,
    pub count: u32,
}

/// An object with a name: its type, and whether it is a block.
#[derive(Clone, Copy)]
pub(crate) struct Root {
    pub ty: PartType,
    pub is_block: bool,
}
