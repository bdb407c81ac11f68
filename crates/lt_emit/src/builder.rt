//! Code that is emitted backwards.
mod emission;

use lt_ir::Node;
use lt_model::Shape;
use lt_tables::Site;
use std::alloc::Global;
use std::collections::BTreeMap;

/// The code of a function as far as it is emitted, each node behind its successors. Nodes name these by their numbers in the order of
/// emission.
#[derive(Drop)]
pub struct Builder<'t> {
    pub alloc: Global,
    pub site: &'t Site<'t>,
    /// Whether footprints are tracked.
    pub tracks: bool,
    pub nodes: Vec<Node>,
    /// The shapes of the structs that are copied.
    pub structs: Vec<Shape>,
    /// How many registers are used.
    pub registers: u32,
}
