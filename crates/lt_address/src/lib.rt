// Which contents a cell may have: numbers, null, addresses in blocks, addresses in ended blocks, and none that was ever set. `specs/Value.antt` says what a value stands for.
#![tactic(auto)]

mod end;
mod form;
mod join;
mod law;
mod numbers;
mod order;
#[cfg(test)]
mod rows;
mod seek;
mod target;
mod targets;
#[cfg(test)]
mod tests;
mod truth;
mod value;

pub use end::{end_block, keep_usable};
pub use form::{offsets_in, targets_from};
pub use join::join_value;
pub use law::end_law;
pub use order::{is_nothing, is_value_below};
pub use target::Target;
pub use targets::Targets;
pub use truth::{can_be_false, can_be_true, keep_pointer, truths};
pub use value::Value;
