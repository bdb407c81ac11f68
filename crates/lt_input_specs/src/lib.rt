//! Entry specifications of typed programs: the default, and what holds of each that a text says. Both are defined in `lt_entry`.
#![tactic(auto)]

mod cells;
mod default;
mod entry;
mod laws;
mod parameters;
mod stops;

pub use cells::{any_value, zero_start};
pub use default::{blocks_in, default_spec, place_of};
pub use entry::may_be_entry;
pub use laws::{defaults_are_bounded, specifications_are_bounded};
pub use parameters::{default_blocks, default_name, parameters_of, target_of};
pub use stops::NoSpec;
