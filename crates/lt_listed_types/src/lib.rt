// By which types typed units get at memory: `specs/Laws.antt` says that these are listed.
#![tactic(auto)]

mod laws;

pub use laws::types_of_accesses_are_listed;
