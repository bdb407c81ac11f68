// What typing gives is in range; `specs/Laws.antt` says what this means.
#![tactic(auto)]

mod laws;

pub use laws::{lasting_ids_have_rows, programs_are_in_range, samples_are_judged};
