//! What each operator, call, name and mark makes of its operands, and which typing rules it breaks; the definitions are those of
//! `lt_tree`'s `specs/Typing`.
#![tactic(auto)]

pub mod binary;
pub mod calls;
pub mod marks;
pub mod names;
mod one_rule;
pub mod parts;
pub mod shared;
pub mod unary;
