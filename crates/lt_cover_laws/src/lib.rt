// Laws of the definitions of coverage files; `specs/Laws.antt` says them.
#![tactic(auto)]

mod laws;

pub use laws::{merges_are_one, merges_are_there_however_grouped, texts_stand_for_one_table};
