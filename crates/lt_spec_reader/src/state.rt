//! What is kept while lines are read.

use crate::stubs::Ranges;
use lt_input_blocks::BlockTypes;
use lt_input_names::{LineBlock, Names};
use lt_input_wants::Wants;

/// What is kept while lines are read.
#[derive(Drop)]
pub struct State<'p> {
    pub names: Names<'p>,
    pub types: BlockTypes<'p>,
    /// The blocks that lines made.
    pub blocks: Vec<LineBlock<'p>>,
    /// What lines say of cells.
    pub wants: Wants<'p>,
    /// What lines say of functions without a body.
    pub ranges: Ranges<'p>,
}
