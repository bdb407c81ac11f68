use crate::targets::Targets;
use lt_value::Num;

/// Which contents a cell may have: the members of `num`, null, the addresses in the living instance of a target's block at its
/// offsets, addresses in ended blocks, and that nothing was ever stored.
#[derive(Debug, Drop)]
pub struct Value {
    pub num: Option<Num>,
    pub null: bool,
    pub targets: Targets,
    pub ended: bool,
    pub unset: bool,
}
