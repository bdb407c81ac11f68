//! The enumerators that a tree declares are hidden names from there on; lt_tree/specs/Scope.antt says which.

mod declarator;
mod expression;
mod mark;
mod specifier;
