//! Memory of objects and cells; `specs/Image.antt` says what contracts see of it, and the definitions of each call stand in `lt_model`.
#![tactic(auto)]

mod access;
mod address;
mod copying;
mod lookup;
mod memory;
mod object;
mod stop;

pub use memory::Memory;
pub use stop::MemStop;

#[cfg(test)]
mod tests;
