// Integer constant expressions, C11 6.6p6, and their conversions.

ghost use Rattle.std.specs.Prelude.{◌≡◌};
ghost use Rattle.lt_model.specs.declared.scalar.DataModel.{DataModel};
ghost use Rattle.lt_model.specs.declared.scalar.Scalar.TheVariants as scalars;
ghost use Rattle.lt_model.specs.Scalar.{convert_of, IsValue};
ghost use Rattle.lt_tree.specs.Typing.Constants as typing;
ghost use Rattle.lt_tree.specs.Typing.ConstancyView.{constancy_of};
ghost use Rattle.lt_tree.specs.Typing.Expressions as expressions;
ghost use Rattle.lt_table.specs.ConstantViews.{IfNumber};

use lt_model::{DataModel, Scalar, convert};
use lt_tree::typed::Constancy;

/// Whether it is an integer constant expression.
pub fn is_number(c: Constancy) -> bool
    ensures { result ≡ typing.is_number (constancy_of c) }
{
    matches!(c, Constancy::Number(_))
}

/// Whether it is of the form of an integer constant expression.
pub fn is_form(c: Constancy) -> bool
    ensures { result ≡ typing.is_form (constancy_of c) }
{
    matches!(c, Constancy::Number(_) | Constancy::Faulty)
}

/// Whether it is an integer constant expression with the value 0.
pub fn is_zero(c: Constancy) -> bool
    ensures { result ≡ typing.is_zero (constancy_of c) }
{
    match c {
        Constancy::Number(z) => z == 0,
        _ => false,
    }
}

/// Whether it is a null pointer constant, C11 6.3.2.3p3.
pub fn is_null_constant(c: Constancy) -> bool
    ensures { result ≡ typing.is_null_constant (constancy_of c) }
{
    match c {
        Constancy::NullConstant => true,
        _ => is_zero(c),
    }
}

/// A number as a value of a type, C11 6.3.1.2 and 6.3.1.3.
pub fn number_as(model: DataModel, ty: Scalar, z: i128) -> i128
    ensures is { result ≡ convert_of model ty z }
    ensures fits { IsValue model ty result }
{
    match ty {
        Scalar::Bool => { if z == 0 { 0 } else { 1 } }
        // Each other type wraps modulo a power of two that divides 2 ^ 64.
        _ => convert(model, Scalar::ULLong, ty, z.rem_euclid(1 << 64)),
    }
}

/// What it is once it is converted to an integer type.
pub fn converted(model: DataModel, ty: Scalar, c: Constancy) -> Constancy
    ensures is { constancy_of result ≡ typing.converted model ty (constancy_of c) }
    ensures fits { IfNumber (constancy_of result) (IsValue model ty) }
{
    match c {
        Constancy::Number(z) => Constancy::Number(number_as(model, ty, z)),
        Constancy::Faulty => Constancy::Faulty,
        _ => Constancy::Varying,
    }
}

/// What it is once it is converted to an integer type; an address has a truth.
pub fn constancy_as_number(model: DataModel, ty: Scalar, c: Constancy) -> Constancy
    ensures is { constancy_of result ≡ expressions.constancy_as_number model ty (constancy_of c) }
    ensures fits { IfNumber (constancy_of result) (IsValue model ty) }
{
    match c {
        Constancy::Number(z) => Constancy::Number(number_as(model, ty, z)),
        Constancy::Faulty => Constancy::Faulty,
        _ => match ty {
            Scalar::Bool => truth_of_address(c),
            _ => Constancy::Varying,
        },
    }
}

// The truth of an address, C11 6.3.1.2.
fn truth_of_address(c: Constancy) -> Constancy
    ensures is { constancy_of result ≡ expressions.truth_of_address (constancy_of c) }
    ensures fits { (model : DataModel) → IfNumber (constancy_of result) (IsValue model scalars.Bool) }
{
    match c {
        Constancy::NullConstant | Constancy::NullAddress => Constancy::Number(0),
        Constancy::Address { .. } => Constancy::Number(1),
        _ => Constancy::Varying,
    }
}
