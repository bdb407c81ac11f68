mod comma;
mod declaration;
mod declarator;
mod expression;
mod specifier;
mod statement;
mod unit;

pub use expression::expression as erase_expression;
pub use unit::erase;
