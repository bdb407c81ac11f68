//! A unit has the same program where greater ids are good; `specs/Laws.antt` states it.
#![tactic(auto)]

mod laws;

pub use laws::greater_ids_change_nothing;
