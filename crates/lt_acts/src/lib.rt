// What single nodes of graphs do to the registers of a call and to memory; `specs/Acts.antt` says what each act promises.
#![tactic(auto)]

mod arms;
mod branching;
mod computing;
mod converting;
mod copying;
mod flow;
mod loading;
mod looking;
mod marking;
mod operands;
mod placing;
mod results;
mod storing;
mod tracking;

pub use arms::follow;
pub use branching::{number, truth};
pub use converting::{convert_as, convert_to};
pub use copying::copy;
pub use flow::{Fault, Stop};
pub use loading::load;
pub use looking::look;
pub use marking::mark;
pub use operands::{is_content_of, used};
pub use placing::{address_of, begin, create, end, place, seal};
pub use results::{apply_to, compare, constant, move_address, subtract};
pub use storing::store;
pub use tracking::part;
