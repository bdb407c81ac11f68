// The nodes of a unit in one list, each with the number of the nodes of its part; `specs/Sites.antt` says what they are.
#![tactic(auto)]

mod list;
mod lister;
mod site;

pub use list::list_sites;
pub use site::{NodeRef, Site};
