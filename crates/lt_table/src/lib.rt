//! What a program is made of while it is typed: its types, each once, its structs, and constants.
#![tactic(auto)]

mod constants;
mod structs;
mod table;
mod types;

pub use constants::{
    TypedConstant, applied, chosen, complement, connected, constancy_as_number,
    constancy_as_pointer, constant_of, converted, id_of, is_form, is_null_constant, is_number,
    is_tag, is_zero, moved_back, moved_by, moved_to, negated, negative, null_of, number_as,
    operated, truth_of,
};
pub use structs::{
    Extent, PlacedMember, member_offset, no_members, pointer_extent, repeated, scalar_extent,
    whole, with_member,
};
pub use table::{Kind, TypeTable};
pub use types::Types;
