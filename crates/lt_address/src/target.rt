use lt_value::Num;

/// An abstract block, and the offsets at which an address may lie in it.
#[derive(Clone, Copy, PartialEq, Eq, Debug)]
pub struct Target {
    pub block: u32,
    pub at: Num,
}
