ghost use Rattle.std.specs.Prelude.{◌≡◌};
ghost use Rattle.lt_model.specs.Operators.{number_of_kind};

/// The binary operators of C11 6.5.5 to 6.5.12.
#[derive(Clone, Copy, PartialEq, Eq, Debug)]
pub enum Op {
    Add,
    Sub,
    Mul,
    Div,
    Rem,
    Shl,
    Shr,
    And,
    Or,
    Xor,
    Lt,
    Le,
    Gt,
    Ge,
    Eq,
    Ne,
}

/// The kinds of undefined behaviour, in the order of their numbers, from 1.
#[derive(Clone, Copy, PartialEq, Eq, Debug)]
pub enum Ub {
    /// A signed result doesn't fit the type of its operation.
    Overflow,
    /// A divisor is zero.
    ZeroDivisor,
    /// A quotient can't be represented.
    Quotient,
    /// A shift count out of range, or a left shift of a negative value or out of the type's range.
    Shift,
    /// A pointer moved out of its object, or null moved.
    Move,
    /// The address of an ended object used.
    Ended,
    /// Null followed.
    Null,
    /// No cell of that type at the offset.
    NoCell,
    /// An unset cell loaded.
    Unset,
    /// A store to an object that isn't writable.
    Sealed,
    /// Two unsequenced accesses of one cell, one of them a side effect.
    Unsequenced,
    /// Addresses of different objects ordered or subtracted.
    Unrelated,
    /// The value used of a function that gave none.
    NoValue,
}

/// The number of a kind, from 1 to 13.
pub fn ub_number(kind: Ub) -> u8
    ensures { result ≡ number_of_kind kind }
{
    match kind {
        Ub::Overflow => 1,
        Ub::ZeroDivisor => 2,
        Ub::Quotient => 3,
        Ub::Shift => 4,
        Ub::Move => 5,
        Ub::Ended => 6,
        Ub::Null => 7,
        Ub::NoCell => 8,
        Ub::Unset => 9,
        Ub::Sealed => 10,
        Ub::Unsequenced => 11,
        Ub::Unrelated => 12,
        Ub::NoValue => 13,
    }
}
