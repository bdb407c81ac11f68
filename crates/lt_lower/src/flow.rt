//! Code of statements, C11 6.8, emitted backwards.
mod ends;
mod labels;
mod simple;
mod start;
mod statements;

use lt_ir::Arm;
pub use statements::{cases, flows, items};

/// Where a statement leads: behind it, to the return of the value in register 0, to the return of none, and where `break` and `continue`
/// lead.
#[derive(Clone, Copy)]
pub struct Exits {
    pub next: u32,
    pub back: u32,
    pub leaves: u32,
    pub breaks: u32,
    pub continues: u32,
}

/// The code of the statements of a `switch`: where it begins, and where its labels lead, in the order of the text.
#[derive(Drop)]
pub struct Entered {
    pub from: u32,
    pub arms: Vec<Arm>,
    pub default: Option<u32>,
}
