// What each kind of node means for decisions and clauses.
ghost use Rattle.std.specs.Prelude.{◌≡◌};
ghost use Rattle.lt_tree.specs.View.{expression_of};
ghost use Rattle.lt_tree.specs.UnitView.{statement_of};
ghost use Rattle.lt_tree.specs.Nodes.{an_expression, a_statement};
ghost use Rattle.lt_sites.specs.Sites.{node_of};
ghost use Rattle.lt_decisions.specs.Turns.{turn_at, test_place};

use lt_sites::NodeRef;
use lt_tree::{Expr, Stmt, UnaryOp};

/// What is asked for.
#[derive(Clone, Copy)]
pub enum Tests {
    Decisions,
    Clauses,
}

/// Where a walk to the tests goes on at a node.
#[derive(Clone, Copy)]
pub enum Turn {
    /// Behind a mark.
    Skip,
    /// Inside marks.
    Inside,
    /// Inside a `pc_after`.
    After,
    /// To the operands of `&&`, `||` and `!`.
    Operands,
    /// Behind a test.
    Test,
}

/// Where a controlling expression stands.
#[derive(Clone, Copy)]
pub enum TestPlace {
    First,
    BehindBody,
    BehindHead,
}

pub fn turn_at(tests: Tests, node: NodeRef<'_>) -> Turn
    ensures { result ≡ turn_at tests (node_of node.entry) }
{
    match node {
        NodeRef::Mark(_) => Turn::Skip,
        NodeRef::Expression(e) => turn_of_expression(tests, e),
        _ => Turn::Test,
    }
}

fn turn_of_expression(tests: Tests, e: &Expr) -> Turn
    ensures { result ≡ turn_at tests (an_expression (expression_of e.now)) }
{
    match e {
        Expr::Marked(..) | Expr::Decide(..) => Turn::Inside,
        Expr::After(..) => Turn::After,
        Expr::Logical(..) | Expr::Unary(UnaryOp::Not, _) => match tests {
            Tests::Decisions => Turn::Test,
            Tests::Clauses => Turn::Operands,
        },
        _ => Turn::Test,
    }
}

/// Where the controlling expression of a node stands, if it has one.
pub fn test_place(node: NodeRef<'_>) -> Option<TestPlace>
    ensures { result ≡ test_place (node_of node.entry) }
{
    match node {
        NodeRef::Statement(x) => test_place_of_statement(x),
        NodeRef::Expression(Expr::Conditional(..)) => Some(TestPlace::First),
        _ => None,
    }
}

fn test_place_of_statement(x: &Stmt) -> Option<TestPlace>
    ensures { result ≡ test_place (a_statement (statement_of x.now)) }
{
    match x {
        Stmt::If(..) | Stmt::While(..) => Some(TestPlace::First),
        Stmt::Do(..) => Some(TestPlace::BehindBody),
        Stmt::For(_, Some(_), _, _) => Some(TestPlace::BehindHead),
        _ => None,
    }
}
