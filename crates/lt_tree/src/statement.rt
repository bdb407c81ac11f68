use crate::declaration::Declaration;
use crate::expression::Expr;
use crate::mark::Mark;

/// A statement, C11 6.8.
#[derive(Drop)]
#[cycle(statements)]
pub enum Stmt {
    Compound(Vec<Item>),
    Expression(Expr),
    Null,
    If(Expr, Box<Stmt>, Option<Box<Stmt>>),
    While(Expr, Box<Stmt>),
    Do(Box<Stmt>, Expr),
    For(ForStart, Option<Expr>, Option<Expr>, Box<Stmt>),
    Switch(Expr, Vec<SwitchCase>),
    Break,
    Continue,
    Return(Option<Expr>),
}

/// What stands before the first `;` of a `for`.
#[derive(Drop)]
pub enum ForStart {
    Nothing,
    Expression(Expr),
    Declaration(Declaration),
}

/// A statement directly in the body of a `switch`, with its labels.
#[derive(Drop)]
#[cycle(statements)]
pub struct SwitchCase {
    pub labels: Vec<Label>,
    pub statement: Stmt,
}

/// A label of a `switch`, C11 6.8.1.
#[derive(Drop)]
pub enum Label {
    Case(Expr),
    Default,
}

/// An item of a block.
#[derive(Drop)]
#[cycle(statements)]
pub enum Item {
    Declaration(Declaration),
    Statement(Stmt),
    Mark(Mark),
}
