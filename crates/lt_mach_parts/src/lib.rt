// The parts of a machine for graphs: footprints, registers and the objects of variables. Contracts see of each what the meaning of graphs
// has in its place, which stands in `lt_ir`.
#![tactic(auto)]

mod bounds;
mod footprint;
mod registers;
mod scope;
mod stacks;
mod stubs;

pub use bounds::{Bounds, HeldBound};
pub use footprint::{CellName, Footprint};
pub use registers::Registers;
pub use scope::Scope;
pub use stubs::{Stubs, stub_places};
