//! Reads entry specifications of typed programs; `lt_entry` says which specification a text says.
#![tactic(auto)]

mod block;
mod blocks;
mod cells;
mod entry;
mod faults;
mod free;
mod lines;
mod needs;
mod objects;
mod own;
mod pointed;
mod points;
mod ranged;
mod ranges;
mod reading;
mod requirements;
mod said;
mod start;
mod state;
mod stops;
mod stubs;
mod unfree;

pub use reading::read_spec;
pub use stops::NoSpecification;
