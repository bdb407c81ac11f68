use crate::name::Name;
use crate::operator::Ub;
use crate::sequence::Sequence;

/// A name that a mark bound, with its value.
#[derive(Debug, Drop)]
pub struct Binding {
    pub name: Name,
    pub value: i128,
}

/// A mark that a run made: its label, whether its predicate was true, and what it bound, in the order of its text.
#[derive(Debug, Drop)]
pub struct Mark {
    pub id: u32,
    pub truth: bool,
    pub bound: Sequence<Binding>,
}

/// How a run is over. It ends, in the sense of coverage, by one of the first four alone.
#[derive(Debug, Drop)]
pub enum End {
    /// The entry returned, or came to the end of its body.
    Returned,
    /// A call of one of the functions that stop.
    Stopped,
    /// Undefined behaviour.
    Undefined(Ub),
    /// No value was left for this function without a body.
    NoInput(Name),
    /// A tick was needed and none was left.
    Steps,
    /// A call would have made too many active calls.
    Deep,
    /// Too many cells would have been alive.
    Cells,
}

/// A run: its marks in the order in which they were made, its end and the ticks that it spent.
#[derive(Debug, Drop)]
pub struct Run {
    pub marks: Sequence<Mark>,
    pub end: End,
    pub ticks: u64,
}
