// Names that trees declare for what stands behind them; lt_tree/specs/Scope.antt says which.

ghost use Rattle.std.specs.Prelude.{◌≡◌, IfOk, option_map};
ghost use Rattle.lt_tree.specs.View.{expression_of, parameters_of};
ghost use Rattle.lt_tree.specs.Records.{specifiers_of, declarator_of, parameter_list_in};
ghost use Rattle.lt_tree.specs.UnitView.{initialiser_of, initialisers_in, statement_of};
ghost use Rattle.lt_tree.specs.Scope as scope;
ghost use Rattle.lt_expr.specs.Parsing.{rest_of, scope_of, Hides};
ghost use Rattle.lt_decl.specs.Singles.{in_function};

use lt_expr::Parser;
use lt_tree::{
    Declarator, DeclaratorPart, Expr, Initialiser, Parameter, Parameters, Specifiers, Stmt, Storage,
};
use std::alloc::AllocError;

/// Whether the specifiers of a declaration make typedef names.
pub(crate) fn makes_types(specifiers: &Specifiers) -> bool
    ensures { result ≡ scope.makes_types (specifiers_of specifiers.now) }
{
    specifiers
        .storage
        .iter()
        .any(|class| *class == Storage::Typedef)
}

/// Declares the enumerators of an expression that may be left out.
pub(crate) fn hide_optional(parser: &mut Parser, e: &Option<Expr>) -> Result<(), AllocError>
    ensures { IfOk result (λ _. Hides parser.old parser.new (scope.after_optional (option_map expression_of e.now) (scope_of parser.old))) }
{
    match e {
        None => Ok(()),
        Some(e) => parser.hide_expression(e),
    }
}

/// Declares the enumerators of an initialiser that may be left out.
pub(crate) fn hide_initialiser(
    parser: &mut Parser,
    initialiser: &Option<Initialiser>,
) -> Result<(), AllocError>
    ensures { IfOk result (λ _. Hides parser.old parser.new (scope.after_initialiser (option_map initialiser_of initialiser.now) (scope_of parser.old))) }
{
    match initialiser {
        None => Ok(()),
        Some(initialiser) => hide_given(parser, initialiser),
    }
}

#[cycle(hide)]
fn hide_given(parser: &mut Parser, initialiser: &Initialiser) -> Result<(), AllocError>
    ensures { IfOk result (λ _. Hides parser.old parser.new (scope.hiding (scope.enumerators_in_initialiser (initialiser_of initialiser.now)) (scope_of parser.old))) }
{
    match initialiser {
        Initialiser::Expression(value) => parser.hide_expression(value),
        Initialiser::List(parts) => hide_all(parser, parts.as_slice()),
    }
}

#[cycle(hide)]
fn hide_all(parser: &mut Parser, list: &[Initialiser]) -> Result<(), AllocError>
    ensures { IfOk result (λ _. Hides parser.old parser.new (scope.hiding (scope.enumerators_in_initialisers (initialisers_in list.now)) (scope_of parser.old))) }
{
    'parts: for part in list {
        hide_given(parser, part)?;
    }
    Ok(())
}

/// Declares the enumerators of a statement that is no block of its own.
pub(crate) fn hide_statement(parser: &mut Parser, statement: &Stmt) -> Result<(), AllocError>
    ensures { IfOk result (λ _. Hides parser.old parser.new (scope.after_statement (statement_of statement.now) (scope_of parser.old))) }
{
    match statement {
        Stmt::Expression(e) => parser.hide_expression(e),
        Stmt::Return(value) => hide_optional(parser, value),
        _ => Ok(()),
    }
}

/// Declares the parameters of a function for its body.
pub(crate) fn declare_parameters(
    parser: &mut Parser,
    declarator: &Declarator,
) -> Result<(), AllocError>
    ensures { IfOk result (λ _. Hides parser.old parser.new (in_function (declarator_of declarator.now) (scope_of parser.old))) }
{
    match declarator.parts.as_slice().split_first() {
        Some((DeclaratorPart::Function(parameters), _)) => declare_all(parser, parameters),
        _ => Ok(()),
    }
}

fn declare_all(parser: &mut Parser, parameters: &Parameters) -> Result<(), AllocError>
    ensures { IfOk result (λ _. Hides parser.old parser.new (scope.after_parameters (parameters_of parameters.now) (scope_of parser.old))) }
{
    match parameters {
        Parameters::Unstated | Parameters::Void => Ok(()),
        Parameters::Listed(list) | Parameters::Open(list) => declare_list(parser, list.as_slice()),
    }
}

fn declare_list(parser: &mut Parser, list: &[Parameter]) -> Result<(), AllocError>
    ensures { IfOk result (λ _. Hides parser.old parser.new (scope.after_list (parameter_list_in list.now) (scope_of parser.old))) }
{
    'parameters: for parameter in list {
        declare_parameter(parser, parameter)?;
    }
    Ok(())
}

fn declare_parameter(parser: &mut Parser, parameter: &Parameter) -> Result<(), AllocError>
    ensures { IfOk result (λ _. Hides parser.old parser.new (scope.after_parameter (specifiers_of parameter.now.specifiers) (declarator_of parameter.now.declarator) (scope_of parser.old))) }
{
    parser.hide_specifiers(&parameter.specifiers)?;
    parser.declare(&parameter.declarator, false)
}
