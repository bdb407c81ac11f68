//! What specifiers and declarators make, C11 6.7, and which typing rules they break; the definitions are those of `lt_tree`'s
//! `specs/Typing`.
#![tactic(auto)]

mod declaration;
pub mod declarators;
mod enums;
mod judged;
mod kinds;
mod made;
mod members;
mod parameter_lists;
mod redeclared;
pub mod specifiers;
mod structs;

pub use kinds::{DeclaredKind, kind_of};
pub use made::{Built, Declares, Judging, Naming, OpenStruct, Parameters, Setting, Specified};
pub use members::OpenMembers;
