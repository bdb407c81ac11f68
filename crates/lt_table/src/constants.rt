// Constants and constant expressions, C11 6.4.4 and 6.6.

mod addresses;
mod literals;
mod marks;
mod numbers;
mod operations;

pub use addresses::{constancy_as_pointer, moved_back, moved_by, moved_to, null_of};
pub use literals::{TypedConstant, constant_of};
pub use marks::{id_of, is_tag};
pub use numbers::{
    constancy_as_number, converted, is_form, is_null_constant, is_number, is_zero, number_as,
};
pub use operations::{
    applied, chosen, complement, connected, negated, negative, operated, truth_of,
};
