use crate::cell::{CellType, Shape};
use crate::name::Name;
use crate::operator::Op;
use crate::sequence::Sequence;

/// A list of numbers.
pub type Values = Sequence<i128>;

/// A cell of a named object: the object's name and a byte offset. A parameter is at offset 0 of its own name.
#[derive(Debug, Drop)]
pub struct Place {
    pub root: Name,
    pub offset: u64,
}

/// What a cell holds before a run.
#[derive(Debug, Drop)]
pub enum CellSet {
    Number(Place, i128),
    /// The address of a place, or null.
    Point(Place, Option<Place>),
}

/// The values that a function without a body gives, in order.
#[derive(Debug, Drop)]
pub struct StubSet {
    pub name: Name,
    pub values: Values,
}

/// A named object of an input.
#[derive(Debug, Drop)]
pub struct BlockIn {
    pub name: Name,
    pub shape: Shape,
}

/// What a free cell may hold.
#[derive(Debug, Drop)]
pub enum Want {
    /// A number from the first to the second.
    Between(i128, i128),
    /// The address of one of these places, or null.
    OneOf(Sequence<Option<Place>>),
}

/// What a free cell holds if a test says nothing of it.
#[derive(Debug, Drop)]
pub enum StartValue {
    Number(i128),
    Point(Option<Place>),
    /// An address that no place names.
    Other,
}

/// A cell that an input may set.
#[derive(Debug, Drop)]
pub struct FreeCell {
    pub at: Place,
    pub ty: CellType,
    pub want: Want,
    pub start: StartValue,
}

/// The least and the greatest value that a function without a body may give.
#[derive(Debug, Drop)]
pub struct StubRange {
    pub name: Name,
    pub lo: i128,
    pub hi: i128,
}

/// A factor and the place whose number it multiplies.
#[derive(Debug, Drop)]
pub struct NeedTerm {
    pub at: Place,
    pub factor: i128,
}

/// A relation that the numbers of an input must meet: the sum of the terms stands in it to the constant.
#[derive(Debug, Drop)]
pub struct Need {
    pub terms: Sequence<NeedTerm>,
    pub rel: Op,
    pub constant: i128,
}

/// What the inputs of an entry are: the function's number, the named objects, every free cell, every function without a body, and
/// the relations.
#[derive(Debug, Drop)]
pub struct Spec {
    pub entry: u32,
    pub blocks: Sequence<BlockIn>,
    pub cells: Sequence<FreeCell>,
    pub stubs: Sequence<StubRange>,
    pub needs: Sequence<Need>,
}

/// An input of a run. A free cell that it doesn't name has its start value.
#[derive(Debug, Drop)]
pub struct Input {
    pub blocks: Sequence<BlockIn>,
    pub cells: Sequence<CellSet>,
    pub stubs: Sequence<StubSet>,
}
