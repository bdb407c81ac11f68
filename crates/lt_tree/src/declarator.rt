use crate::expression::Expr;
use crate::specifier::Specifiers;
use lt_model::{Name, Quals};

/// A declarator, C11 6.7.6, or an abstract one, which has no name.
#[derive(Drop)]
#[cycle(tree)]
pub struct Declarator {
    pub name: Option<Name>,
    /// From the name outwards: `*a[3]` has the array first, `(*a)[3]` the pointer.
    pub parts: Vec<DeclaratorPart>,
}

/// One step from a name to its type.
#[derive(Drop)]
#[cycle(tree)]
pub enum DeclaratorPart {
    Pointer(Quals),
    Array(Option<Box<Expr>>),
    Function(Parameters),
}

/// What stands in the parentheses of a function's declarator.
#[derive(Drop)]
#[cycle(tree)]
pub enum Parameters {
    /// Nothing.
    Unstated,
    /// The word `void` alone.
    Void,
    Listed(Vec<Parameter>),
    /// With `...` behind them.
    Open(Vec<Parameter>),
}

/// A parameter. Its declarator may be abstract, or have neither name nor parts.
#[derive(Drop)]
#[cycle(tree)]
pub struct Parameter {
    pub specifiers: Specifiers,
    pub declarator: Declarator,
}
