//! Marks in trees of C: units and expressions without them, and their greatest number; `lt_tree`'s `specs/Erasure.antt` and `specs/Ids.antt` say what that is.
#![tactic(auto)]

mod erasure;
mod ids;

pub use erasure::{erase, erase_expression};
pub use ids::max_id;
