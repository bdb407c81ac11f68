//! Types of C's expressions, and of the declarations inside them; `specs/Going.antt` of `lt_env` says what going over a part of a unit
//! gives.
#![tactic(auto)]

mod walk;

pub use lt_declare::{
    Built, DeclaredKind, Declares, Judging, Naming, Parameters, Setting, Specified, kind_of,
};
pub use lt_env::values::{constancy_to, converted_to, value_in};
pub use lt_env::{
    Bodies, Declarations, Faults, Form, Judged, Labels, NameFrame, NameSet, Names, Objects,
    TypeStop, Typed, Use, Walker,
};
pub use lt_judge::names::text_type;
pub use lt_judge::shared::{converted_value, fits, is_integer, is_scalar, only_unless};
pub use walk::{constant_expression, declarator, expression, mark, specifiers, type_of};
