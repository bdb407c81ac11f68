//! The numbers of lines, as the values of cells and functions.

ghost use Rattle.std.specs.Prelude.{◌≡◌, IfOk, map};
ghost use Rattle.std.specs.List.{list_all};
ghost use Rattle.lt_entry.specs.Written.{value_of};
ghost use Rattle.lt_entry.specs.Suites.{is_number};
ghost use Rattle.lt_entry.specs.Views.{numeral_view};

use lt_entry::Numeral;
use lt_input_wants::{is_number, value_of};
use lt_model::{DataModel, Scalar};
use std::alloc::{AllocError, Global};

/// Whether all numbers are values of the type, if there is one.
pub fn are_numbers(model: DataModel, values: &[Numeral], scalar: Option<Scalar>) -> bool
    ensures { result ≡ list_all (λ value. is_number model (numeral_view value) scalar) values.now }
{
    values.iter().all(|value| is_number(model, *value, scalar))
}

/// The numbers that numerals write.
pub fn values_of(alloc: Global, numerals: &[Numeral]) -> Result<Vec<i128>, AllocError>
    ensures { IfOk result (λ values. values.items ≡ map (λ numeral. value_of (numeral_view numeral)) numerals.now) }
{
    numerals
        .iter()
        .map(|numeral| value_of(*numeral))
        .collect(alloc)
}
