use crate::pure::{How, Pure};
use crate::variable::Variable;
use lt_model::{CellType, Content, Op, Scalar, Sequence};

/// What an access is to.
#[derive(Clone, Copy)]
pub enum Access {
    Scalar(CellType),
    /// A struct, by the place of its shape in the function's table.
    Struct(u32),
}

/// How an address moves.
#[derive(Clone, Copy)]
pub enum Movement {
    /// By as many elements as a register says.
    Elements { count: u32, op: Op, size: u64 },
    /// To a member of the object.
    Member { offset: u64 },
}

/// What a clash node does with footprints. Where it joins two, the left register gets both, and the right one has none then.
#[derive(Clone, Copy)]
pub enum Parts {
    /// Two unsequenced parts are joined, unless they clash.
    Unsequenced { left: u32, right: u32 },
    /// Two parts with a sequence point between them are joined.
    Sequenced { left: u32, right: u32 },
    /// A sequence point.
    Settled { register: u32 },
    /// The object is read whose address the register has.
    Read { register: u32, access: Access },
    /// What is to be written at the address that the register has is no pending write.
    Target { register: u32, access: Access },
}

/// The value that a call gives.
#[derive(Clone, Copy)]
pub enum Given {
    Nothing,
    Fixed(Content),
    /// What a register has.
    Held(u32),
}

/// A value of a switch, and the node that follows there.
#[derive(Clone, Copy)]
pub struct Arm {
    pub value: i128,
    pub next: u32,
}

/// A node. `next` is the number of the node that follows; `to`, `from`, `place` and the like are numbers of registers. Where `tracks`
/// is false nothing is added to footprints.
#[derive(Drop)]
pub enum Node {
    /// The footprint of the register is kept, or there is none.
    Constant {
        to: u32,
        content: Content,
        is_kept: bool,
        next: u32,
    },
    /// The address of a variable, with no footprint.
    Address {
        to: u32,
        variable: Variable,
        next: u32,
    },
    /// What lies at the address that `from` has, whose footprint grows.
    Load {
        to: u32,
        from: u32,
        ty: CellType,
        tracks: bool,
        next: u32,
    },
    /// The content of `value` goes to the address that `place` has; then `place` has the content of `gives`, and its footprint grows.
    Store {
        place: u32,
        value: u32,
        gives: u32,
        ty: CellType,
        tracks: bool,
        next: u32,
    },
    Move {
        to: u32,
        pointer: u32,
        by: Movement,
        next: u32,
    },
    Subtract {
        to: u32,
        left: u32,
        right: u32,
        size: u64,
        next: u32,
    },
    Apply {
        to: u32,
        left: u32,
        right: u32,
        op: Op,
        ty: Scalar,
        next: u32,
    },
    Convert {
        to: u32,
        from: u32,
        how: How,
        next: u32,
    },
    Compare {
        to: u32,
        left: u32,
        right: u32,
        op: Op,
        next: u32,
    },
    /// A struct at the address that `from` has goes to the one that `place` has, whose footprint grows.
    Copy {
        place: u32,
        from: u32,
        shape: u32,
        tracks: bool,
        next: u32,
    },
    Create {
        local: u32,
        is_zeroed: bool,
        next: u32,
    },
    Seal {
        variable: Variable,
        next: u32,
    },
    End {
        variable: Variable,
        next: u32,
    },
    Branch {
        test: u32,
        on: u32,
        off: u32,
    },
    /// The arms in the order of the text, and their table: ascending by value, each value once, and each number finds there what it
    /// finds first among the arms.
    Switch {
        value: u32,
        arms: Sequence<Arm>,
        table: Sequence<Arm>,
        default: u32,
    },
    /// The arguments are in so many registers from `first` on.
    Call {
        function: u32,
        to: Option<u32>,
        first: u32,
        count: u32,
        next: u32,
    },
    /// A function without a body, by its place among the graph's.
    Stub {
        stub: u32,
        to: u32,
        next: u32,
    },
    Stop,
    Return {
        value: Given,
    },
    Tick {
        next: u32,
    },
    /// The expressions whose values are bound stand in the order of the label's names.
    Mark {
        label: u32,
        predicate: Pure,
        bound: Sequence<Pure>,
        next: u32,
    },
    Clash {
        parts: Parts,
        next: u32,
    },
}
