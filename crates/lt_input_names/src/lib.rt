//! What files of an entry name; `specs/Blocks.antt` says what blocks in memory stand for.
#![tactic(auto)]

mod block;
mod facts;
mod first;
mod kinds;
mod names;
mod part;
mod roots;
mod stubs;

pub use block::{Base, Block, ElementType, LineBlock, Specification};
pub use facts::Elements;
pub use kinds::Kinds;
pub use names::Names;
pub use part::{Part, PartType};
pub use stubs::{Stub, stubs_of};
