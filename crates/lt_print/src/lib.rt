// The canonical text of trees of C; `specs/Canon.antt` and `specs/CanonUnits.antt` of `lt_tree` say what it is.
#![tactic(auto)]

mod declaration;
mod declarator;
mod expression;
mod head;
pub mod laws;
mod level;
mod literal;
mod mark;
mod member;
mod operation;
mod operator;
mod postfix;
mod prefix;
mod specifier;
mod spelling;
mod statement;
mod text;
mod unit;
mod word;

pub use unit::print_unit;
