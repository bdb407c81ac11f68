// Programs with marks added run as they did: `specs/Laws.antt` says which, and the definitions of lt_mark_typing what is compared.
#![tactic(auto)]

mod laws;

pub use laws::{programs_are_made_in_steps, programs_run_beside};
