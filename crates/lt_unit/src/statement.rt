// Statements, C11 6.8. One that chooses or repeats is a block, and so is each of its statements.
mod ends;
pub mod faults;
mod head;
mod made;
mod simple;

ghost use Rattle.std.specs.Prelude.{◌≡◌};
ghost use Rattle.lt_tree.specs.Tree as c;
ghost use Rattle.lt_tree.specs.View.{expression_of};
ghost use Rattle.lt_tree.specs.UnitView.{statement_of, start_of, items_in, cases_in};
ghost use Rattle.lt_tree.specs.Typing.Steps.{in_block};
ghost use Rattle.lt_tree.specs.Typing.StatementTyping as typing;
ghost use Rattle.lt_env.specs.Going.{Gives};
ghost use Rattle.lt_unit.specs.Inside as inside;
ghost use Rattle.lt_unit.specs.UnitViews.{around_of, statement_in};
ghost use Rattle.std.specs.Prelude.{option_map};

use crate::around::{Around, in_a_loop, in_a_switch};
use crate::cases::cases;
use crate::declaration::for_start;
use crate::items::items;
use crate::optional::optional;
use crate::statement::head::{SwitchHead, switch_head};
use lt_tree::typed::Statement;
use lt_tree::typed::makes::statement as makes;
use lt_tree::{Expr, ForStart, Item, Stmt, SwitchCase};
use lt_type::{NameFrame, TypeStop, Use, Walker, expression};

/// Goes over a statement.
#[cycle(statements)]
pub fn statement(walker: &mut Walker, s: &Stmt, around: Around) -> Result<Box<Statement>, TypeStop>
    ensures { Gives statement_in walker.old walker.new result (λ types. typing.statement (statement_of s.now) (around_of types around)) }
{
    match s {
        Stmt::Compound(list) => compound(walker, list.as_slice(), around),
        Stmt::Expression(e) => simple::evaluates(walker, e),
        Stmt::Null => simple::null(walker),
        Stmt::If(test, body, None) => if_alone(walker, test, body, around),
        Stmt::If(test, body, Some(other)) => if_else(walker, test, body, other, around),
        Stmt::While(test, body) => while_loop(walker, test, body, around),
        Stmt::Do(body, test) => do_loop(walker, body, test, around),
        Stmt::For(start, test, step, body) => for_loop(walker, start, test, step, body, around),
        Stmt::Switch(operand, list) => switch(walker, operand, list.as_slice(), around),
        Stmt::Break => simple::break_out(walker, around),
        Stmt::Continue => simple::continue_on(walker, around),
        Stmt::Return(value) => simple::return_from(walker, value, around),
    }
}

/// Goes over a statement in a block of its own.
#[cycle(statements)]
pub fn in_its_block(
    walker: &mut Walker,
    s: &Stmt,
    around: Around,
) -> Result<Box<Statement>, TypeStop>
    ensures { Gives statement_in walker.old walker.new result (λ types. in_block (typing.statement (statement_of s.now) (around_of types around))) }
{
    let alloc = walker.types.alloc();
    walker.open(NameFrame::new(alloc))?;
    let made = statement(walker, s, around)?;
    let _frame = walker.close();
    Ok(made)
}

// `{ .. }`
#[cycle(statements)]
fn compound(walker: &mut Walker, list: &[Item], around: Around) -> Result<Box<Statement>, TypeStop>
    ensures { Gives statement_in walker.old walker.new result (λ types. typing.statement (c.Compound (items_in list.now)) (around_of types around)) }
{
    let _node = walker.enter()?;
    let alloc = walker.types.alloc();
    walker.open(NameFrame::new(alloc))?;
    let made = items(walker, list, around)?;
    let _frame = walker.close();
    let all = makes::boxed(alloc, makes::compound(made))?;
    Ok(all)
}

// `if (test) body`
#[cycle(statements)]
fn if_alone(
    walker: &mut Walker,
    test: &Expr,
    body: &Stmt,
    around: Around,
) -> Result<Box<Statement>, TypeStop>
    ensures { Gives statement_in walker.old walker.new result (λ types. typing.statement (c.If (expression_of test.now) (statement_of body.now)) (around_of types around)) }
{
    let node = walker.enter()?;
    let alloc = walker.types.alloc();
    walker.open(NameFrame::new(alloc))?;
    let made = if_inside(walker, node, test, body, around)?;
    let _frame = walker.close();
    Ok(made)
}

// `if (test) body else other`
#[cycle(statements)]
fn if_else(
    walker: &mut Walker,
    test: &Expr,
    body: &Stmt,
    other: &Stmt,
    around: Around,
) -> Result<Box<Statement>, TypeStop>
    ensures { Gives statement_in walker.old walker.new result (λ types. typing.statement (c.IfElse (expression_of test.now) (statement_of body.now) (statement_of other.now)) (around_of types around)) }
{
    let node = walker.enter()?;
    let alloc = walker.types.alloc();
    walker.open(NameFrame::new(alloc))?;
    let made = if_else_inside(walker, node, test, body, other, around)?;
    let _frame = walker.close();
    Ok(made)
}

// `while (test) body`
#[cycle(statements)]
fn while_loop(
    walker: &mut Walker,
    test: &Expr,
    body: &Stmt,
    around: Around,
) -> Result<Box<Statement>, TypeStop>
    ensures { Gives statement_in walker.old walker.new result (λ types. typing.statement (c.While (expression_of test.now) (statement_of body.now)) (around_of types around)) }
{
    let node = walker.enter()?;
    let alloc = walker.types.alloc();
    walker.open(NameFrame::new(alloc))?;
    let made = while_inside(walker, node, test, body, around)?;
    let _frame = walker.close();
    Ok(made)
}

// `do body while (test);`
#[cycle(statements)]
fn do_loop(
    walker: &mut Walker,
    body: &Stmt,
    test: &Expr,
    around: Around,
) -> Result<Box<Statement>, TypeStop>
    ensures { Gives statement_in walker.old walker.new result (λ types. typing.statement (c.Do (statement_of body.now) (expression_of test.now)) (around_of types around)) }
{
    let node = walker.enter()?;
    let alloc = walker.types.alloc();
    walker.open(NameFrame::new(alloc))?;
    let made = do_inside(walker, node, body, test, around)?;
    let _frame = walker.close();
    Ok(made)
}

// `for (start; test; step) body`
#[cycle(statements)]
fn for_loop(
    walker: &mut Walker,
    start: &ForStart,
    test: &Option<Expr>,
    step: &Option<Expr>,
    body: &Stmt,
    around: Around,
) -> Result<Box<Statement>, TypeStop>
    ensures { Gives statement_in walker.old walker.new result (λ types. typing.statement (c.For (start_of start.now) (option_map expression_of test.now) (option_map expression_of step.now) (statement_of body.now)) (around_of types around)) }
{
    let node = walker.enter()?;
    let alloc = walker.types.alloc();
    walker.open(NameFrame::new(alloc))?;
    let made = for_inside(walker, node, start, test, step, body, around)?;
    let _frame = walker.close();
    Ok(made)
}

// `switch (operand) { .. }`
#[cycle(statements)]
fn switch(
    walker: &mut Walker,
    operand: &Expr,
    list: &[SwitchCase],
    around: Around,
) -> Result<Box<Statement>, TypeStop>
    ensures { Gives statement_in walker.old walker.new result (λ types. typing.statement (c.Switch (expression_of operand.now) (cases_in list.now)) (around_of types around)) }
{
    let node = walker.enter()?;
    let alloc = walker.types.alloc();
    walker.open(NameFrame::new(alloc))?;
    let made = switch_inside(walker, node, operand, list, around)?;
    let _frame = walker.close();
    Ok(made)
}

// Inside the block of `if (test) body`.
#[cycle(statements)]
fn if_inside(
    walker: &mut Walker,
    node: u32,
    test: &Expr,
    body: &Stmt,
    around: Around,
) -> Result<Box<Statement>, TypeStop>
    ensures { Gives statement_in walker.old walker.new result (λ types. inside.if_inside node (expression_of test.now) (statement_of body.now) (around_of types around)) }
{
    let x = expression(walker, test, Use::Truth)?;
    let first = in_its_block(walker, body, around)?;
    ends::if_end(walker, node, x, first)
}

// Inside the block of `if (test) body else other`.
#[cycle(statements)]
fn if_else_inside(
    walker: &mut Walker,
    node: u32,
    test: &Expr,
    body: &Stmt,
    other: &Stmt,
    around: Around,
) -> Result<Box<Statement>, TypeStop>
    ensures { Gives statement_in walker.old walker.new result (λ types. inside.if_else_inside node (expression_of test.now) (statement_of body.now) (statement_of other.now) (around_of types around)) }
{
    let x = expression(walker, test, Use::Truth)?;
    let first = in_its_block(walker, body, around)?;
    let second = in_its_block(walker, other, around)?;
    ends::if_else_end(walker, node, x, first, second)
}

// Inside the block of `while (test) body`.
#[cycle(statements)]
fn while_inside(
    walker: &mut Walker,
    node: u32,
    test: &Expr,
    body: &Stmt,
    around: Around,
) -> Result<Box<Statement>, TypeStop>
    ensures { Gives statement_in walker.old walker.new result (λ types. inside.while_inside node (expression_of test.now) (statement_of body.now) (around_of types around)) }
{
    let x = expression(walker, test, Use::Truth)?;
    let first = in_its_block(walker, body, in_a_loop(around))?;
    ends::while_end(walker, node, x, first)
}

// Inside the block of `do body while (test);`.
#[cycle(statements)]
fn do_inside(
    walker: &mut Walker,
    node: u32,
    body: &Stmt,
    test: &Expr,
    around: Around,
) -> Result<Box<Statement>, TypeStop>
    ensures { Gives statement_in walker.old walker.new result (λ types. inside.do_inside node (statement_of body.now) (expression_of test.now) (around_of types around)) }
{
    let first = in_its_block(walker, body, in_a_loop(around))?;
    let x = expression(walker, test, Use::Truth)?;
    ends::do_end(walker, node, first, x)
}

// Inside the block of `for (start; test; step) body`.
#[cycle(statements)]
fn for_inside(
    walker: &mut Walker,
    node: u32,
    start: &ForStart,
    test: &Option<Expr>,
    step: &Option<Expr>,
    body: &Stmt,
    around: Around,
) -> Result<Box<Statement>, TypeStop>
    ensures { Gives statement_in walker.old walker.new result (λ types. inside.for_inside node (start_of start.now) (option_map expression_of test.now) (option_map expression_of step.now) (statement_of body.now) (around_of types around)) }
{
    let begin = for_start(walker, start)?;
    let x = optional(walker, test, Use::Truth)?;
    let y = optional(walker, step, Use::Value)?;
    let first = in_its_block(walker, body, in_a_loop(around))?;
    ends::for_end(walker, node, begin, x, y, first)
}

// Inside the block of `switch (operand) { .. }`.
#[cycle(statements)]
fn switch_inside(
    walker: &mut Walker,
    node: u32,
    operand: &Expr,
    list: &[SwitchCase],
    around: Around,
) -> Result<Box<Statement>, TypeStop>
    ensures { Gives statement_in walker.old walker.new result (λ types. inside.switch_inside node (expression_of operand.now) (cases_in list.now) (around_of types around)) }
{
    let x = expression(walker, operand, Use::Truth)?;
    let head = switch_head(walker, x)?;
    let SwitchHead { ty, faults, value } = head;
    let list = cases(walker, list, ty, in_a_switch(around))?;
    ends::switch_end(walker, node, faults, value, list)
}
