// New marks of objectives, with ids one after the other; `specs/Numbering.antt` says which.
#![tactic(auto)]

mod new_marks;
mod stop;

pub use new_marks::NewMarks;
pub use stop::MarkStop;
