// Declarators made of their parts.

ghost use Rattle.std.specs.Prelude.{◌≡◌, IfOk};
ghost use Rattle.lt_tree.specs.Tree as t;
ghost use Rattle.lt_tree.specs.View.{qualifiers_of, part_before, parameters_of};
ghost use Rattle.lt_tree.specs.Records.{maybe_given, parameter_list_in};

use crate::declarator::{DeclaratorPart, Parameter, Parameters};
use crate::expression::Expr;
use crate::makes::specifier::boxed;
use lt_model::Quals;
use std::alloc::{AllocError, Global};

/// `*`, with the qualifiers after it.
pub fn pointer(quals: Quals) -> DeclaratorPart
    ensures { (rest : t.Parts) → part_before result rest ≡ t.Pointer (qualifiers_of quals) rest }
{
    DeclaratorPart::Pointer(quals)
}

/// `[]`, with the length if it is given.
pub fn array(alloc: Global, length: Option<Expr>) -> Result<DeclaratorPart, AllocError>
    ensures { IfOk result (λ all. (rest : t.Parts) → part_before all rest ≡ t.Array (maybe_given length) rest) }
{
    Ok(DeclaratorPart::Array(boxed(alloc, length)?))
}

/// `()`, with what stands in it.
pub fn function(parameters: Parameters) -> DeclaratorPart
    ensures { (rest : t.Parts) → part_before result rest ≡ t.Function (parameters_of parameters) rest }
{
    DeclaratorPart::Function(parameters)
}

/// Nothing between the parentheses.
pub fn unstated() -> Parameters
    ensures { parameters_of result ≡ t.Unstated }
{
    Parameters::Unstated
}

/// The word `void` alone.
pub fn void() -> Parameters
    ensures { parameters_of result ≡ t.Void }
{
    Parameters::Void
}

/// One or more parameters.
pub fn listed(list: Vec<Parameter>) -> Parameters
    ensures { parameters_of result ≡ t.Listed (parameter_list_in list.items) }
{
    Parameters::Listed(list)
}

/// One or more parameters with `...` behind them.
pub fn open(list: Vec<Parameter>) -> Parameters
    ensures { parameters_of result ≡ t.Open (parameter_list_in list.items) }
{
    Parameters::Open(list)
}
