use crate::declaration::Declaration;
use crate::declarator::Declarator;
use crate::specifier::Specifiers;
use crate::statement::Item;

/// A translation unit, C11 6.9.
#[derive(Drop)]
pub struct Unit {
    pub externals: Vec<External>,
}

/// What stands outside of functions.
#[derive(Drop)]
pub enum External {
    Function(FunctionDefinition),
    Declaration(Declaration),
}

/// A function with its body, C11 6.9.1.
#[derive(Drop)]
pub struct FunctionDefinition {
    pub specifiers: Specifiers,
    pub declarator: Declarator,
    pub body: Vec<Item>,
}
