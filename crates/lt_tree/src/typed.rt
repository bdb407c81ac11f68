// What typing makes of trees.

mod constancy;
mod entity;
pub mod makes;
mod parts;
mod program;
mod rule;
mod statement;
mod tree;
mod types;

pub use constancy::Constancy;
pub use entity::{
    Bound, Declared, Entity, Fact, Frame, Function, LabelInfo, Life, Member, Object, StructType,
    Tag, Tagged,
};
pub use program::Program;
pub use rule::Rule;
pub use statement::{Case, ForStart, Item, Label, Local, Start, StartPart, Statement};
pub use tree::{Binding, Conversion, Mark, Place, Side, Value, When};
pub use types::{FunctionType, TypeId, TypeRow};
