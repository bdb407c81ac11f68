//! Marks: what a label's predicate and bound expressions give where its node stands.

ghost use Rattle.std.specs.Prelude.{◌≡◌, map, IfOk, option_map};
ghost use Rattle.lt_ir.specs.PureView.{pure_of};
ghost use Rattle.lt_acts.specs.Looking.{Quietly, Binds, Marks, vec_in, truth_looked, number_looked};

use crate::looking::look;
use crate::operands::{number_in, truth_in};
use lt_ir::{LabelInfo, Pure};
use lt_mach_parts::Scope;
use lt_mem::Memory;
use lt_model::{Binding, Mark, Name, Sequence};
use std::alloc::{AllocError, Global};

// Whether a pure expression isn't 0 or null, if it has a value.
fn truth_of(scope: &Scope, memory: &Memory, it: &Pure) -> Option<bool>
    ensures { Quietly (truth_looked memory.now.model (pure_of it.now)) scope.now memory.now.blocks result }
{
    match look(scope, memory, it) {
        Ok(content) => truth_in(memory, content).ok(),
        Err(_) => None,
    }
}

// The number that a pure expression gives, if it gives one.
fn number_of(scope: &Scope, memory: &Memory, it: &Pure) -> Option<i128>
    ensures { Quietly (number_looked memory.now.model (pure_of it.now)) scope.now memory.now.blocks result }
{
    match look(scope, memory, it) {
        Ok(content) => number_in(content).ok(),
        Err(_) => None,
    }
}

// Names with the numbers of expressions, if each has one.
fn bindings(
    alloc: Global,
    scope: &Scope,
    memory: &Memory,
    names: &[Name],
    values: &[Pure],
) -> Result<Option<Vec<Binding>>, AllocError>
    ensures { IfOk result (λ bound. Binds memory.now.model names.now (map pure_of values.now) scope.now memory.now.blocks (vec_in bound)) }
{
    let count = names.len().min(values.len());
    let mut bound = Vec::with_capacity(alloc, count)?;
    for i in 0..count {
        match number_of(scope, memory, &values[i]) {
            Some(value) => {
                let name = Name::new(alloc, names[i].as_slice())?;
                bound.push(Binding { name, value })?;
            }
            None => return Ok(None),
        }
    }
    Ok(Some(bound))
}

/// The mark that a label's node makes. It is true where the predicate is and each bound expression has a number; whatever else they come
/// to is forgotten.
pub fn mark(
    alloc: Global,
    scope: &Scope,
    memory: &Memory,
    label: &LabelInfo,
    predicate: &Pure,
    values: &[Pure],
) -> Result<Mark, AllocError>
    ensures { IfOk result (Marks memory.now.model label.now (pure_of predicate.now) (map pure_of values.now) scope.now memory.now.blocks) }
{
    let truth = truth_of(scope, memory, predicate);
    let bound = bindings(alloc, scope, memory, label.bound.as_slice(), values)?;
    match (truth, bound) {
        (Some(truth), Some(bound)) => Ok(Mark {
            id: label.id,
            truth,
            bound: Sequence::new(bound),
        }),
        _ => Ok(Mark {
            id: label.id,
            truth: false,
            bound: Sequence::new(Vec::new(alloc)),
        }),
    }
}
