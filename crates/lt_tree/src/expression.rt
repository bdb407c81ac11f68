use crate::mark::Mark;
use crate::specifier::TypeName;
use lt_model::{Name, Op};

/// The operators before one operand, C11 6.5.3, other than `++`, `--` and `sizeof`.
#[derive(Clone, Copy, PartialEq, Eq, Debug)]
pub enum UnaryOp {
    AddressOf,
    Dereference,
    Plus,
    Minus,
    Complement,
    Not,
}

/// The operators that sequence their operands, C11 6.5.13 and 6.5.14.
#[derive(Clone, Copy, PartialEq, Eq, Debug)]
pub enum LogicalOp {
    And,
    Or,
}

/// An expression, C11 6.5. Parentheses leave no node.
#[derive(Drop)]
#[cycle(tree)]
pub enum Expr {
    Name(Name),
    /// An integer or character constant, as written in the source.
    Constant(Name),
    /// The bytes that adjacent string literals spell together, without the closing zero.
    Text(Name),
    Index(Box<Expr>, Box<Expr>),
    Call(Box<Expr>, Vec<Expr>),
    Member(Box<Expr>, Name),
    Arrow(Box<Expr>, Name),
    PostInc(Box<Expr>),
    PostDec(Box<Expr>),
    PreInc(Box<Expr>),
    PreDec(Box<Expr>),
    Unary(UnaryOp, Box<Expr>),
    SizeofExpr(Box<Expr>),
    SizeofType(Box<TypeName>),
    Cast(Box<TypeName>, Box<Expr>),
    Binary(Op, Box<Expr>, Box<Expr>),
    Logical(LogicalOp, Box<Expr>, Box<Expr>),
    Conditional(Box<Expr>, Box<Expr>, Box<Expr>),
    /// A simple assignment, or one with the operator that it applies first.
    Assign(Option<Op>, Box<Expr>, Box<Expr>),
    /// Two or more expressions, of which the first is no comma expression.
    Comma(Vec<Expr>),
    /// An expression behind one or more marks.
    Marked(Vec<Mark>, Box<Expr>),
    /// `pc_decide`: the expression, the two ids as written in the source, the tag.
    Decide(Box<Expr>, Name, Name, Name),
    /// `pc_after`: the expression, the id as written in the source, the tag.
    After(Box<Expr>, Name, Name),
}
