//! The functions that may be an entry.

ghost use Rattle.std.specs.Prelude.{◌≡◌, [], ◌∷◌, MatchOption};
ghost use Rattle.std.specs.List.{list_all};
ghost use Rattle.lt_tree.specs.Typing.Types.{is_scalar};
ghost use Rattle.lt_tree.specs.Typing.ProgramView.{program_of};
ghost use Rattle.lt_entry.specs.Conditions.{may_be_entry};
ghost use Rattle.lt_entry.specs.Specifications.{IsLastEntry, HasNoEntry};
ghost use Rattle.lt_input_names.specs.Kinds.{AreKinds};
ghost use Rattle.lt_input_specs.specs.Defaults.{roots_at};

use crate::parameters::{numbers_of, object_at};
use lt_input_names::Kinds;

/// Whether the function of this number, if there is one with a body, has parameters that are integers or pointers.
pub fn may_be_entry(kinds: &Kinds<'_>, number: usize) -> bool
    requires { AreKinds kinds.now }
    ensures { result ≡ may_be_entry (program_of kinds.now.program.now) number }
{
    are_scalars(kinds, numbers_of(kinds.program, number))
}

// Whether the objects with these numbers are integers or pointers.
fn are_scalars(kinds: &Kinds<'_>, numbers: &[u32]) -> bool
    requires { AreKinds kinds.now }
    ensures { result ≡ list_all (λ parameter. is_scalar parameter.type) (roots_at kinds.now.program.now numbers.now) }
{
    let mut are = true;
    for number in numbers {
        are &= is_scalar(kinds, *number);
    }
    are
}

// Whether the object with this number, if there is one, is an integer or a pointer.
fn is_scalar(kinds: &Kinds<'_>, number: u32) -> bool
    requires { AreKinds kinds.now }
    ensures { result ≡ list_all (λ parameter. is_scalar parameter.type) (roots_at kinds.now.program.now (number ∷ [])) }
{
    match object_at(kinds.program, number) {
        None => true,
        Some(object) => kinds.is_scalar(object.ty),
    }
}

/// The number of the last function with a body that may be an entry.
pub fn last_entry(kinds: &Kinds<'_>) -> Option<usize>
    requires { AreKinds kinds.now }
    ensures { MatchOption result (HasNoEntry (program_of kinds.now.program.now)) (IsLastEntry (program_of kinds.now.program.now)) }
{
    let mut left = kinds.program.functions.len();
    'functions: while left > 0 {
        left -= 1;
        if may_be_entry(kinds, left) {
            return Some(left);
        }
    }
    None
}
