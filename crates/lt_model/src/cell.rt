use crate::scalar::Scalar;
use crate::sequence::Sequence;

/// A place in memory: a block and a byte offset in it. Null is `None` of `Option<Address>`.
#[derive(Clone, Copy, PartialEq, Eq, Debug)]
pub struct Address {
    pub block: u32,
    pub offset: u64,
}

/// The type of a cell. A pointer type is named by its number among the program's types, without qualifiers.
#[derive(Clone, Copy, PartialEq, Eq, Debug)]
pub enum CellType {
    Num(Scalar),
    Pointer(u32),
}

/// What a cell holds.
#[derive(Clone, Copy, PartialEq, Eq, Debug)]
pub enum Content {
    Unset,
    Number(i128),
    Address(Option<Address>),
}

/// A cell of an object: its byte offset, its type and what it holds.
#[derive(Clone, Copy, PartialEq, Eq, Debug)]
pub struct StoredCell {
    pub offset: u64,
    pub ty: CellType,
    pub holds: Content,
}

/// A cell of an object that is to be made: its byte offset and its type.
#[derive(Clone, Copy, PartialEq, Eq, Debug)]
pub struct ShapeCell {
    pub offset: u64,
    pub ty: CellType,
}

/// What an object that is to be made has: its cells, and its size in bytes.
#[derive(Debug, Drop)]
pub struct Shape {
    pub cells: Sequence<ShapeCell>,
    pub size: u64,
}
