//! What is looked up while a program is lowered, in tables that are made once; `specs/Lookups.antt` says what is looked up.
#![tactic(auto)]

mod bare;
mod bare_types;
mod facts;
mod filling;
mod interned;
mod layouts;
mod locals;
mod objects;
mod parts;
mod places;
mod pointers;
mod site;
mod tables;
mod type_parts;

pub use bare_types::BareTypes;
pub use facts::TypeFacts;
pub use layouts::Layouts;
pub use site::Site;
pub use tables::{Tables, stops};
