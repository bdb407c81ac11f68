pub mod declarator;
pub mod expression;
pub mod specifier;
pub mod statement;
