use crate::node::Node;
use lt_model::{BlockIn, Content, Name, Sequence, Shape};

/// The code of a function: its parameters, the shapes of its local objects and of the structs that it copies, how many registers it
/// has, its nodes, and the one where it starts.
#[derive(Drop)]
pub struct Code {
    pub name: Name,
    pub params: Sequence<BlockIn>,
    pub locals: Sequence<Shape>,
    pub structs: Sequence<Shape>,
    pub registers: u32,
    pub nodes: Sequence<Node>,
    pub start: u32,
}

/// An object that is there from the start, with what its cells hold then. The name of a string literal is empty.
#[derive(Drop)]
pub struct Static {
    pub block: BlockIn,
    pub cells: Sequence<Content>,
    pub writable: bool,
}

/// A label, with the names that it binds.
#[derive(Drop)]
pub struct LabelInfo {
    pub id: u32,
    pub tag: Name,
    pub bound: Sequence<Name>,
}
