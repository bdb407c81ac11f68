use crate::variable::Variable;
use lt_model::{CellType, Content, Op, Scalar};

/// How a content is converted.
#[derive(Clone, Copy)]
pub enum How {
    ToInteger(Scalar),
    /// Whether it isn't 0 or null.
    ToTruth,
    /// An address stays.
    ToPointer,
    /// No value.
    ToVoid,
    /// A value stays; there has to be one.
    ToValue,
    /// Whatever it is stays, no value too.
    AsItIs,
}

/// A pure expression, of which nothing but its value counts.
#[derive(Drop)]
pub enum Pure {
    /// An expression that isn't pure: it has no value.
    Never,
    Fixed(Content),
    /// The address of a variable.
    Place(Variable),
    Load(CellType, Box<Pure>),
    Convert(How, Box<Pure>),
    Apply(Op, Scalar, Box<Pure>, Box<Pure>),
    Move {
        op: Op,
        size: u64,
        pointer: Box<Pure>,
        count: Box<Pure>,
    },
    Member {
        offset: u64,
        pointer: Box<Pure>,
    },
    Distance {
        size: u64,
        left: Box<Pure>,
        right: Box<Pure>,
    },
    Compare(Op, Box<Pure>, Box<Pure>),
    /// The first, then one of the others.
    Choose(Box<Pure>, Box<Pure>, Box<Pure>),
    /// One after the other; the value is the last one's.
    Comma(Vec<Pure>),
}
