//! What names stand for on a line, in tables that are made once.
mod finding;
mod parts;
mod pointed;
mod sizes;
mod steps;
mod targets;

use crate::block::{Block, LineBlock};
use crate::kinds::Kinds;
use crate::part::Root;
use lt_model::Scalar;
use lt_tables::{BareTypes, Layouts};
use std::collections::HashMap;

/// What names stand for: the parameters of an entry, then blocks, then the program's objects with linkage.
#[derive(Drop)]
pub struct Names<'p> {
    /// What the types of the program are.
    kinds: Kinds<'p>,
    layouts: Layouts,
    bare: BareTypes<'p>,
    /// The number of a function with a body.
    entry: u32,
    /// The blocks that lines made, before the others.
    added: Vec<LineBlock<'p>>,
    blocks: &'p [Block],
    /// The first object of each name.
    roots: HashMap<&'p [u8], Root>,
    /// What each function without a body gives.
    stubs: HashMap<&'p [u8], Scalar>,
}
