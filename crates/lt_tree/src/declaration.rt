use crate::declarator::Declarator;
use crate::expression::Expr;
use crate::specifier::Specifiers;

/// A declaration, C11 6.7.
#[derive(Drop)]
pub struct Declaration {
    pub specifiers: Specifiers,
    pub declarators: Vec<InitDeclarator>,
}

/// A declarator with its initialiser, if it has one.
#[derive(Drop)]
pub struct InitDeclarator {
    pub declarator: Declarator,
    pub initialiser: Option<Initialiser>,
}

/// An initialiser, C11 6.7.9.
#[derive(Drop)]
pub enum Initialiser {
    Expression(Expr),
    List(Vec<Initialiser>),
}
