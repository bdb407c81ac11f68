//! What predicates may copy declares no tag; `specs/Laws.antt` states it.
#![tactic(auto)]

mod laws;

pub use laws::{copies_are_simple, expressions_keep_tags, items_keep_tags};
