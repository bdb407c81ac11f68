// Further objects change nothing: `specs/Further.antt` says what a typed program with further objects is, `specs/Laws.antt` how it runs.
#![tactic(auto)]

mod laws;

pub use laws::{further_objects_change_nothing, further_objects_take_room_alone};
