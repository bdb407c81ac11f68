// What the commands `replay`, `convert` and `annotate` answer over the bytes of their files, as definitions: which refusal or which text is due,
// how a command ends, and in which words; `specs/Answers.antt` says which answer is due.
#![tactic(auto)]

mod laws;
mod status;
mod wording;

pub use laws::one_answer_is_due;
pub use status::{Refusal, Status};
pub use wording::{code, message};
