use crate::typed::constancy::Constancy;
use crate::typed::tree::{Mark, Value};
use crate::typed::types::TypeId;
use lt_model::{Name, Scalar};

/// A part of what an object holds first, C11 6.7.9.
#[derive(Drop)]
pub enum StartPart {
    /// A full expression's value, of the type of the scalar or struct at this offset.
    Stored {
        offset: u64,
        value: Box<Value>,
    },
    /// What a scalar at this offset of an object holds that is there from the start.
    Fixed {
        offset: u64,
        ty: TypeId,
        content: Constancy,
    },
    /// Bytes in characters of this type, from this offset on.
    Letters {
        offset: u64,
        ty: Scalar,
        bytes: Name,
    },
}

/// How an object starts: the parts that are stored, in the order of the text. What they leave out is zero where the whole is
/// zeroed first.
#[derive(Drop)]
pub struct Start {
    pub zeroed: bool,
    pub parts: Vec<StartPart>,
}

/// A local object that is created, and how it starts.
#[derive(Drop)]
pub struct Local {
    pub object: u32,
    pub start: Option<Start>,
}

/// What stands before the first `;` of a `for`.
#[derive(Drop)]
pub enum ForStart {
    Nothing,
    First(Box<Value>),
    /// Objects that end with the loop.
    Locals(Vec<Local>),
}

/// A label of a `switch`. The value is of the type of the switch.
#[derive(Clone, Copy, PartialEq, Eq, Debug)]
pub enum Label {
    Case(i128),
    Default,
}

/// A statement, C11 6.8.
#[derive(Drop)]
#[cycle(typed_statements)]
pub enum Statement {
    Compound(Vec<Item>),
    /// No value is taken.
    Evaluates(Box<Value>),
    Null,
    If(Box<Value>, Box<Statement>),
    IfElse(Box<Value>, Box<Statement>, Box<Statement>),
    While(Box<Value>, Box<Statement>),
    Do(Box<Statement>, Box<Value>),
    For(ForStart, Option<Box<Value>>, Option<Box<Value>>, Box<Statement>),
    /// Of a promoted integer.
    Switch(Box<Value>, Vec<Case>),
    Break,
    Continue,
    /// With a value of the function's type, if it gives one.
    Return(Option<Box<Value>>),
}

/// An item of a block. Declarations that create nothing aren't among them.
#[derive(Drop)]
#[cycle(typed_statements)]
pub enum Item {
    Local(Local),
    Statement(Statement),
    Label(Mark),
}

/// A statement directly in the body of a `switch`, with its labels.
#[derive(Drop)]
#[cycle(typed_statements)]
pub struct Case {
    pub labels: Vec<Label>,
    pub statement: Statement,
}
