// Statements without statements inside, C11 6.8.3 and 6.8.6.

ghost use Rattle.std.specs.Prelude.{◌≡◌, option_map};
ghost use Rattle.lt_tree.specs.Tree as c;
ghost use Rattle.lt_tree.specs.View.{expression_of};
ghost use Rattle.lt_tree.specs.Typing.StatementTyping as typing;
ghost use Rattle.lt_tree.specs.Typing.TypeRows.{type_in};
ghost use Rattle.lt_env.specs.Going.{Gives};
ghost use Rattle.lt_env.specs.Views.{typed_in};
ghost use Rattle.lt_unit.specs.SwitchHeads as heads;
ghost use Rattle.lt_unit.specs.UnitViews.{around_of, statement_in};

use crate::around::{Around, can_break};
use crate::optional::optional;
use crate::statement::faults::return_faults;
use crate::statement::made;
use lt_tree::Expr;
use lt_tree::typed::makes::statement as makes;
use lt_tree::typed::{Rule, Statement, TypeId};
use lt_type::{TypeStop, Typed, Use, Walker, expression, only_unless};

/// An expression as a statement.
pub fn evaluates(walker: &mut Walker, e: &Expr) -> Result<Box<Statement>, TypeStop>
    ensures { (around : typing.Around) → Gives statement_in walker.old walker.new result (λ types. typing.statement (c.Evaluates (expression_of e.now)) around) }
{
    let _node = walker.enter()?;
    let x = expression(walker, e, Use::Value)?;
    let all = made::evaluates(&mut walker.types, x)?;
    Ok(all)
}

/// `;`
pub fn null(walker: &mut Walker) -> Result<Box<Statement>, TypeStop>
    ensures { (around : typing.Around) → Gives statement_in walker.old walker.new result (λ types. typing.statement c.Null around) }
{
    let _node = walker.enter()?;
    let all = makes::boxed(walker.types.alloc(), makes::null())?;
    Ok(all)
}

/// `break;`
pub fn break_out(walker: &mut Walker, around: Around) -> Result<Box<Statement>, TypeStop>
    ensures { Gives statement_in walker.old walker.new result (λ types. typing.statement c.Break (around_of types around)) }
{
    let node = walker.enter()?;
    let can_break = can_break(around);
    let faults = only_unless(walker.types.alloc(), can_break, Rule::StrayJump)?;
    walker.settle(node, &faults)?;
    let all = makes::boxed(walker.types.alloc(), makes::break_out())?;
    Ok(all)
}

/// `continue;`
pub fn continue_on(walker: &mut Walker, around: Around) -> Result<Box<Statement>, TypeStop>
    ensures { Gives statement_in walker.old walker.new result (λ types. typing.statement c.Continue (around_of types around)) }
{
    let node = walker.enter()?;
    let faults = only_unless(walker.types.alloc(), around.in_loop, Rule::StrayJump)?;
    walker.settle(node, &faults)?;
    let all = makes::boxed(walker.types.alloc(), makes::continue_on())?;
    Ok(all)
}

/// `return`, with a value or without.
pub fn return_from(
    walker: &mut Walker,
    value: &Option<Expr>,
    around: Around,
) -> Result<Box<Statement>, TypeStop>
    ensures { Gives statement_in walker.old walker.new result (λ types. typing.statement (c.Return (option_map expression_of value.now)) (around_of types around)) }
{
    let node = walker.enter()?;
    let x = optional(walker, value, Use::Value)?;
    return_end(walker, node, around.returned, x)
}

// The end of a `return` in a function that gives this type.
fn return_end(
    walker: &mut Walker,
    node: u32,
    t: TypeId,
    x: Option<Box<Typed>>,
) -> Result<Box<Statement>, TypeStop>
    ensures { Gives statement_in walker.old walker.new result (λ types. heads.return_end node (type_in types t) (option_map (typed_in types) x)) }
{
    let faults = return_faults(&walker.types, t, &x)?;
    walker.settle(node, &faults)?;
    let all = made::return_from(&mut walker.types, t, x)?;
    Ok(all)
}
