// The scalar types of C, what its operators give, and what memory and a run are; `specs/Lib.antt` names the definitions in the order of the standard.
#![tactic(auto)]

mod arithmetic;
mod cell;
mod checked;
mod conversion;
mod ctype;
mod input;
mod name;
mod operator;
mod run;
mod scalar;
mod sequence;
mod sizes;

pub use arithmetic::apply;
pub use cell::{Address, CellType, Content, Shape, ShapeCell, StoredCell};
pub use checked::{checked_product, checked_sum};
pub use conversion::{convert, promote, usual};
pub use ctype::{CType, MemberType, Quals, Signature, StructType, Structs};
pub use input::{
    BlockIn, CellSet, FreeCell, Input, Need, NeedTerm, Place, Spec, StartValue, StubRange, StubSet,
    Values, Want,
};
pub use name::Name;
pub use operator::{Op, Ub, ub_number};
pub use run::{Binding, End, Mark, Run};
pub use scalar::{
    DataModel, Scalar, char_is_signed, difference_type, greatest, is_signed, is_value, least,
    long_width, pointer_width, size_type, width,
};
pub use sequence::Sequence;
pub use sizes::{layout, nesting_law, size_of};
