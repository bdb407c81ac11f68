//! Blocks, with the types of their elements.

use lt_model::{Name, Scalar, Spec};
use lt_tree::typed::TypeId;

/// A type that no pointer is wrapped around: one of the program's table, or one that specifiers name and that needs no row there.
#[derive(Clone, Copy)]
pub enum Base {
    Row(TypeId),
    Num(Scalar),
    Void,
    Floating,
    /// By its place in the program's list of structs.
    Struct(u32),
}

/// The type of a block's elements: a base behind so many pointers. So the program's table needs no further rows.
#[derive(Clone, Copy)]
pub struct ElementType {
    pub base: Base,
    pub pointers: u32,
}

/// A block: an array of so many elements.
#[derive(Drop)]
pub struct Block {
    pub name: Name,
    pub element: ElementType,
    pub count: u32,
}

/// A block that a line of a specification makes.
#[derive(Clone, Copy)]
pub struct LineBlock<'a> {
    pub name: &'a [u8],
    pub element: ElementType,
    pub count: u32,
}

/// What an entry's inputs are, and the types of the blocks.
#[derive(Drop)]
pub struct Specification {
    pub spec: Spec,
    pub blocks: Vec<Block>,
}
