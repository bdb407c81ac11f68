// The machine runs graphs step by step, and shows a watch each mark that is made; `specs/Promise.antt` says what a run comes to.
#![tactic(auto)]

mod acting;
mod blocks;
mod calling;
mod finding;
mod flow;
mod launching;
mod leading;
mod machine;
mod objects;
mod outcome;
mod parameters;
mod roots;
mod running;
mod setting;
mod statics;
mod stepping;
mod stubbing;
mod values;
mod watch;

pub use outcome::{Brief, Outcome};
pub use running::{run, run_into};
pub use watch::{MarkList, Watch};
