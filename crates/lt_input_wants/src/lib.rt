//! What single numbers, cells, sums and blocks of an entry are to be, and what lines say of cells; `lt_entry` says what it means.
#![tactic(auto)]

mod blocks;
mod cells;
mod marked;
mod numbers;
mod places;
mod stubs;
mod wants;

pub use blocks::{MOST_CELLS, is_object};
pub use cells::holds_well;
pub use marked::MarkedPlaces;
pub use numbers::{is_number, is_range, is_related, value_of};
pub use places::{place_set, same_place};
pub use stubs::whole_range;
pub use wants::{Wants, is_said, may_have_range, say};
