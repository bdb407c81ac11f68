// What replaying a suite on a typed program gives, as definitions; `specs/Replayed.antt` says which table of coverage it is.
#![tactic(auto)]

mod laws;
mod runnable;

pub use laws::{a_suite_has_one_table, coverage_needs_no_unit};
pub use runnable::stripped;
