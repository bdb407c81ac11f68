//! The numbers of lines.

ghost use Rattle.std.specs.Prelude.{◌≡◌, ◌&&◌, int_le};
ghost use Rattle.lt_model.specs.Operators.{is_value};
ghost use Rattle.lt_entry.specs.Written.{value_of};
ghost use Rattle.lt_entry.specs.Conditions.{is_range};
ghost use Rattle.lt_entry.specs.Suites.{is_number};
ghost use Rattle.lt_entry.specs.Meeting.{is_related};
ghost use Rattle.lt_entry.specs.Views.{numeral_view};

use lt_entry::Numeral;
use lt_model::{DataModel, Op, Scalar, is_value};

/// The number that a numeral writes.
pub fn value_of(numeral: Numeral) -> i128
    ensures { result ≡ value_of (numeral_view numeral) }
{
    let size = i128::from(numeral.size);
    if numeral.is_negative { -size } else { size }
}

/// Whether the number is a value of the type, if there is one.
pub fn is_number(model: DataModel, value: Numeral, scalar: Option<Scalar>) -> bool
    ensures { result ≡ is_number model (numeral_view value) scalar }
{
    match scalar {
        None => false,
        Some(scalar) => is_value(model, scalar, value_of(value)),
    }
}

/// Whether the range isn't empty, and its ends are values of the type, if there is one.
pub fn is_range(model: DataModel, low: Numeral, high: Numeral, scalar: Option<Scalar>) -> bool
    ensures { result ≡ is_range model (numeral_view low) (numeral_view high) scalar }
{
    match scalar {
        None => false,
        Some(scalar) => are_ends(model, scalar, value_of(low), value_of(high)),
    }
}

// Whether the range isn't empty, and its ends are values of the type.
fn are_ends(model: DataModel, scalar: Scalar, low: i128, high: i128) -> bool
    ensures { result ≡ (int_le low high && is_value model scalar low && is_value model scalar high) }
{
    low <= high && is_value(model, scalar, low) && is_value(model, scalar, high)
}

/// Whether a sum is related to the constant of its requirement as that says.
pub fn is_related(relation: Op, sum: i128, constant: i128) -> bool
    ensures { result ≡ is_related relation sum constant }
{
    match relation {
        Op::Le => sum <= constant,
        Op::Ge => sum >= constant,
        Op::Eq => sum == constant,
        _ => false,
    }
}
