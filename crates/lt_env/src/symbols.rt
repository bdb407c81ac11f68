// What a program declares: names in scope, objects, functions and labels.
mod declarations;
mod labels;
mod names;
mod objects;
mod words;

pub use declarations::{Bodies, Declarations};
pub use labels::Labels;
pub use names::{NameFrame, Names};
pub use objects::Objects;
pub use words::NameSet;
