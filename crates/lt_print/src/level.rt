// How tightly expressions bind, C11 6.5.

ghost use Rattle.std.specs.Prelude.{◌≡◌, ◌≤◌, nat_lt};
ghost use Rattle.lt_tree.specs.Canon as spec;
ghost use Rattle.lt_tree.specs.View.{expression_of};
ghost use Rattle.lt_print.specs.Levels.{level_meant, IsLevel};

use lt_model::Op;
use lt_tree::{Expr, LogicalOp};

/// The levels of the grammar, the loosest first. The binary operators have levels from 0, `||`, to 9, `*`.
#[derive(Clone, Copy, Debug)]
pub enum Level {
    Comma,
    Marked,
    Assignment,
    Conditional,
    Binary(u8),
    Cast,
    Unary,
    Postfix,
    Primary,
}

impl Level {
    fn rank(self) -> u8
        requires { IsLevel self }
        ensures { result ≡ spec.rank (level_meant self) }
    {
        match self {
            Level::Comma => 0,
            Level::Marked => 1,
            Level::Assignment => 2,
            Level::Conditional => 3,
            Level::Binary(tightness) => 4 + tightness,
            Level::Cast => 14,
            Level::Unary => 15,
            Level::Postfix => 16,
            Level::Primary => 17,
        }
    }

    /// Whether it binds less tightly than another.
    pub fn is_below(self, other: Level) -> bool
        requires own { IsLevel self }
        requires other { IsLevel other }
        ensures { result ≡ nat_lt (spec.rank (level_meant self)) (spec.rank (level_meant other)) }
    {
        self.rank() < other.rank()
    }
}

pub fn tightness(op: Op) -> u8
    ensures value { result ≡ spec.tightness op }
    ensures small { result ≤ 9 }
{
    match op {
        Op::Or => 2,
        Op::Xor => 3,
        Op::And => 4,
        Op::Eq | Op::Ne => 5,
        Op::Lt | Op::Le | Op::Gt | Op::Ge => 6,
        Op::Shl | Op::Shr => 7,
        Op::Add | Op::Sub => 8,
        Op::Mul | Op::Div | Op::Rem => 9,
    }
}

pub fn tightness_of_logical(op: LogicalOp) -> u8
    ensures value { result ≡ spec.tightness_of_logical op }
    ensures small { result ≤ 9 }
{
    match op {
        LogicalOp::Or => 0,
        LogicalOp::And => 1,
    }
}

/// The level of an expression.
pub fn level_of(e: &Expr) -> Level
    ensures value { level_meant result ≡ spec.level_of (expression_of e.now) }
    ensures known { IsLevel result }
{
    match e {
        Expr::Name(_) | Expr::Constant(_) | Expr::Text(_) | Expr::Decide(..) | Expr::After(..) =>
            Level::Primary,
        Expr::Index(..)
        | Expr::Call(..)
        | Expr::Member(..)
        | Expr::Arrow(..)
        | Expr::PostInc(_)
        | Expr::PostDec(_) => Level::Postfix,
        Expr::PreInc(_)
        | Expr::PreDec(_)
        | Expr::Unary(..)
        | Expr::SizeofExpr(_)
        | Expr::SizeofType(_) => Level::Unary,
        Expr::Cast(..) => Level::Cast,
        Expr::Binary(op, ..) => Level::Binary(tightness(*op)),
        Expr::Logical(op, ..) => Level::Binary(tightness_of_logical(*op)),
        Expr::Conditional(..) => Level::Conditional,
        Expr::Assign(..) => Level::Assignment,
        Expr::Marked(..) => Level::Marked,
        Expr::Comma(_) => Level::Comma,
    }
}
