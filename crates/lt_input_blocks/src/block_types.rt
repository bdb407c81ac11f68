//! The types that `block` lines name in a program.
mod elements;
mod shapes;

use crate::facts::Facts;
use crate::names::FileNames;
use lt_input_names::Kinds;
use lt_tables::{BareTypes, Tables};
use lt_tree::typed::Program;

/// The types that `block` lines name in a program.
#[derive(Drop)]
pub struct BlockTypes<'p> {
    pub program: &'p Program<'p>,
    /// What the types of the program are.
    kinds: Kinds<'p>,
    names: FileNames<'p>,
    /// By the places of the table.
    facts: Vec<Facts>,
    /// The cells of structs; more than an object may have count as one more than that.
    cells: Vec<u32>,
    tables: Tables<'p>,
    bare: BareTypes<'p>,
}
