//! How many labels the criteria can ask for in a text; `specs/Laws.antt` says it.
#![tactic(auto)]

mod laws;

pub use laws::{ids_never_pass, texts_have_few_nodes};
