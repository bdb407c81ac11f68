// Whether an expression is pure; `specs/Purity.antt` says what that is.

ghost use Rattle.std.specs.Prelude.{◌≡◌, ◌&&◌};
ghost use Rattle.lt_tree.specs.Purity as pure;
ghost use Rattle.lt_tree.specs.View.{expression_of, parameters_of};
ghost use Rattle.lt_tree.specs.Records.{
  expressions_in,
  maybe_in,
  types_in,
  specifiers_of,
  parts_in,
  declarator_of,
  parameter_list_in,
};

use crate::declarator::{DeclaratorPart, Parameter, Parameters};
use crate::expression::Expr;
use crate::specifier::{TypeName, TypeSpecifier};

/// Whether an expression changes nothing, calls nothing, marks nothing and declares nothing.
#[cycle(purity)]
pub fn is_pure(e: &Expr) -> bool
    ensures { result ≡ pure.is_pure (expression_of e.now) }
{
    match e {
        Expr::Name(_) | Expr::Constant(_) | Expr::Text(_) => true,
        Expr::Index(whole, place) => is_pure(whole) && is_pure(place),
        Expr::Member(whole, _) => is_pure(whole),
        Expr::Arrow(pointer, _) => is_pure(pointer),
        Expr::Unary(_, operand) | Expr::SizeofExpr(operand) => is_pure(operand),
        Expr::SizeofType(name) => is_pure_type_name(name),
        Expr::Cast(name, operand) => is_pure_type_name(name) && is_pure(operand),
        Expr::Binary(_, left, right) | Expr::Logical(_, left, right) => {
            is_pure(left) && is_pure(right)
        }
        Expr::Conditional(test, left, right) => is_pure(test) && is_pure(left) && is_pure(right),
        Expr::Comma(parts) => are_pure(parts.as_slice()),
        Expr::Call(..)
        | Expr::PostInc(_)
        | Expr::PostDec(_)
        | Expr::PreInc(_)
        | Expr::PreDec(_)
        | Expr::Assign(..)
        | Expr::Marked(..)
        | Expr::Decide(..)
        | Expr::After(..) => false,
    }
}

#[cycle(purity)]
fn are_pure(parts: &[Expr]) -> bool
    ensures { result ≡ pure.are_pure (expressions_in parts.now) }
{
    'parts: for part in parts {
        if !is_pure(part) {
            return false;
        }
    }
    true
}

#[cycle(purity)]
fn is_pure_type_name(name: &TypeName) -> bool
    ensures { result ≡ pure.is_pure_specifiers (specifiers_of name.now.specifiers) && pure.is_pure_declarator (declarator_of name.now.declarator) }
{
    are_pure_types(name.specifiers.types.as_slice())
        && are_pure_parts(name.declarator.parts.as_slice())
}

fn are_pure_types(types: &[TypeSpecifier]) -> bool
    ensures { result ≡ pure.are_pure_types (types_in types.now) }
{
    'types: for ty in types {
        if matches!(ty, TypeSpecifier::Struct(..) | TypeSpecifier::Enum(..)) {
            return false;
        }
    }
    true
}

#[cycle(purity)]
fn are_pure_parts(parts: &[DeclaratorPart]) -> bool
    ensures { result ≡ pure.are_pure_parts (parts_in parts.now) }
{
    'parts: for part in parts {
        let is_pure_part = match part {
            DeclaratorPart::Pointer(_) => true,
            DeclaratorPart::Array(length) => is_pure_length(length),
            DeclaratorPart::Function(parameters) => are_pure_parameters(parameters),
        };
        if !is_pure_part {
            return false;
        }
    }
    true
}

#[cycle(purity)]
fn is_pure_length(length: &Option<Box<Expr>>) -> bool
    ensures { result ≡ pure.is_pure_maybe (maybe_in length.now) }
{
    match length {
        None => true,
        Some(e) => is_pure(e),
    }
}

#[cycle(purity)]
fn are_pure_parameters(parameters: &Parameters) -> bool
    ensures { result ≡ pure.are_pure_parameters (parameters_of parameters.now) }
{
    match parameters {
        Parameters::Unstated | Parameters::Void => true,
        Parameters::Listed(list) | Parameters::Open(list) => is_pure_list(list.as_slice()),
    }
}

#[cycle(purity)]
fn is_pure_list(list: &[Parameter]) -> bool
    ensures { result ≡ pure.is_pure_parameter_list (parameter_list_in list.now) }
{
    'list: for parameter in list {
        if !are_pure_types(parameter.specifiers.types.as_slice()) {
            return false;
        }
        if !are_pure_parts(parameter.declarator.parts.as_slice()) {
            return false;
        }
    }
    true
}
