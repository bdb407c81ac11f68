// The inputs of an entry: those that tests build, and which of them meet a specification. Both are defined in `lt_entry`;
// `specs/Finding.antt` says how things are found, and `specs/Maps.antt` what maps have.
#![tactic(auto)]

mod blocks;
mod bounds;
mod cell_maps;
mod cell_order;
mod copies;
mod finder;
mod input;
mod laws;
mod meeting;
mod needs;
mod stub_order;
mod stubs;

pub use input::build;
pub use laws::order_is_no_matter;
pub use meeting::{meets, meets_by_maps};
