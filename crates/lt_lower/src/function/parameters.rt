// Code of parameters, C11 6.9.1: they are sealed that are declared `const`, and end where the function is left.

ghost use Rattle.std.specs.Prelude.{◌≡◌, ◌<◌, IfOk, length};
ghost use Rattle.lt_emit.specs.Emission.{GivesWithin, costs, HasPoint};
ghost use Rattle.lt_lower.specs.Functions.{Continues, parameters_cost, ParametersEnd, ParametersSealed, ParameterSealed};

use lt_emit::Builder;
use lt_ir::{Node, Variable};
use std::alloc::AllocError;

/// The parameters end, the last first.
pub fn parameters_end(b: &mut Builder, to: u32) -> Result<u32, AllocError>
    requires { HasPoint b.old to }
    ensures code { GivesWithin b.old b.new result (parameters_cost) (ParametersEnd to) }
    ensures enters { Continues b.old b.new to result }
{
    let parameters = b.site.function.parameters.as_slice();
    let mut from = to;
    'parameters: for at in 0..parameters.len() {
        let variable = Variable::Parameter(place_of(at)?);
        from = b.emit(Node::End {
            variable,
            next: from,
        })?;
    }
    Ok(from)
}

/// The parameters are sealed that are declared `const`.
pub fn parameters_sealed(b: &mut Builder, to: u32) -> Result<u32, AllocError>
    requires { HasPoint b.old to }
    ensures code { GivesWithin b.old b.new result (parameters_cost) (ParametersSealed to) }
    ensures enters { Continues b.old b.new to result }
{
    let parameters = b.site.function.parameters.as_slice();
    let mut from = to;
    'parameters: for at in (0..parameters.len()).rev() {
        from = parameter_sealed(b, at, parameters[at], from)?;
    }
    Ok(from)
}

// A parameter is sealed, if it is declared `const`.
fn parameter_sealed(b: &mut Builder, at: usize, number: u32, to: u32) -> Result<u32, AllocError>
    requires point { HasPoint b.old to }
    requires parameter { at < length b.old.site.now.function.now.parameters.items }
    ensures code { GivesWithin b.old b.new result (costs 1 0) (ParameterSealed at number to) }
    ensures enters { Continues b.old b.new to result }
{
    if !b.site.tables.is_sealed(number) {
        return Ok(to);
    }
    let variable = Variable::Parameter(place_of(at)?);
    b.emit(Node::Seal { variable, next: to })
}

// A parameter's place. There are no more than 2^32: more end as want of memory does.
fn place_of(at: usize) -> Result<u32, AllocError>
    ensures { IfOk result (λ place. place ≡ at) }
{
    u32::try_from(at).map_err(|_| AllocError)
}
