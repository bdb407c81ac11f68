//! The types of blocks that lines of specifications make; `specs/Elements.antt` says what is answered.
#![tactic(auto)]

mod arithmetic;
mod asked;
mod block_types;
mod cells;
mod facts;
mod first;
mod laws;
mod names;
mod order;
mod tokens;
mod types;

pub use block_types::BlockTypes;
pub use laws::counts_of_blocks_are_small;
