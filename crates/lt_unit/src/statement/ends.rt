// How statements end, once their parts were gone over.

ghost use Rattle.std.specs.Prelude.{◌≡◌, option_map};
ghost use Rattle.lt_tree.specs.Typing.StatementView as view;
ghost use Rattle.lt_tree.specs.Typing.ValueView.{value_of};
ghost use Rattle.lt_env.specs.Going.{Gives};
ghost use Rattle.lt_env.specs.Views.{typed_in};
ghost use Rattle.lt_unit.specs.Inside as inside;
ghost use Rattle.lt_unit.specs.SwitchHeads.{head_end};
ghost use Rattle.lt_unit.specs.UnitViews.{statement_in, for_start_in};

use crate::declaration::TypedStart;
use crate::statement::faults::{for_faults, test_faults};
use crate::statement::made;
use lt_tree::typed::makes::statement as makes;
use lt_tree::typed::{Case, Statement, Value};
use lt_type::{Faults, TypeStop, Typed, Walker};

/// Of an `if` without `else`.
pub fn if_end(
    walker: &mut Walker,
    node: u32,
    test: Box<Typed>,
    body: Box<Statement>,
) -> Result<Box<Statement>, TypeStop>
    ensures { Gives statement_in walker.old walker.new result (λ types. inside.if_end node (typed_in types test) (statement_in types body)) }
{
    let faults = test_faults(&walker.types, &test)?;
    walker.settle(node, &faults)?;
    let all = made::if_alone(&mut walker.types, test, body)?;
    Ok(all)
}

/// Of an `if` with `else`.
pub fn if_else_end(
    walker: &mut Walker,
    node: u32,
    test: Box<Typed>,
    body: Box<Statement>,
    other: Box<Statement>,
) -> Result<Box<Statement>, TypeStop>
    ensures { Gives statement_in walker.old walker.new result (λ types. inside.if_else_end node (typed_in types test) (statement_in types body) (statement_in types other)) }
{
    let faults = test_faults(&walker.types, &test)?;
    walker.settle(node, &faults)?;
    let all = made::if_else(&mut walker.types, test, body, other)?;
    Ok(all)
}

/// Of a `while`.
pub fn while_end(
    walker: &mut Walker,
    node: u32,
    test: Box<Typed>,
    body: Box<Statement>,
) -> Result<Box<Statement>, TypeStop>
    ensures { Gives statement_in walker.old walker.new result (λ types. inside.while_end node (typed_in types test) (statement_in types body)) }
{
    let faults = test_faults(&walker.types, &test)?;
    walker.settle(node, &faults)?;
    let all = made::while_loop(&mut walker.types, test, body)?;
    Ok(all)
}

/// Of a `do`.
pub fn do_end(
    walker: &mut Walker,
    node: u32,
    body: Box<Statement>,
    test: Box<Typed>,
) -> Result<Box<Statement>, TypeStop>
    ensures { Gives statement_in walker.old walker.new result (λ types. inside.do_end node (statement_in types body) (typed_in types test)) }
{
    let faults = test_faults(&walker.types, &test)?;
    walker.settle(node, &faults)?;
    let all = made::do_loop(&mut walker.types, body, test)?;
    Ok(all)
}

/// Of a `for`.
pub fn for_end(
    walker: &mut Walker,
    node: u32,
    start: TypedStart,
    test: Option<Box<Typed>>,
    step: Option<Box<Typed>>,
    body: Box<Statement>,
) -> Result<Box<Statement>, TypeStop>
    ensures { Gives statement_in walker.old walker.new result (λ types. inside.for_end node (for_start_in types start) (option_map (typed_in types) test) (option_map (typed_in types) step) (statement_in types body)) }
{
    let faults = for_faults(&walker.types, start.faults, &test)?;
    walker.settle(node, &faults)?;
    let all = made::for_loop(&mut walker.types, start.start, test, step, body)?;
    Ok(all)
}

/// Of a `switch`, whose operand gave these.
pub fn switch_end(
    walker: &mut Walker,
    node: u32,
    faults: Faults,
    operand: Box<Value>,
    list: Vec<Case>,
) -> Result<Box<Statement>, TypeStop>
    ensures { Gives statement_in walker.old walker.new result (λ types. head_end node faults (value_of types operand.value) (view.cases_in types list.items)) }
{
    walker.settle(node, &faults)?;
    let all = makes::boxed(walker.types.alloc(), makes::switch(operand, list))?;
    Ok(all)
}
