// Places of units with marks added, beside those of the units without them: `specs/Laws.antt` says what holds.
#![tactic(auto)]

mod laws;

pub use laws::{differences_stay, labels_come_from_units};
