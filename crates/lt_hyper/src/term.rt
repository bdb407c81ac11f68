use lt_model::{Name, Op};

/// A hyperlabel: its number, its tag, and the term that a suite has to satisfy.
#[derive(Drop)]
pub struct Hyper {
    pub id: u32,
    pub tag: Name,
    pub term: Term,
}

/// What a suite has to do. Values of the names that labels bind make the environments that satisfy a term.
#[derive(Drop)]
pub enum Term {
    /// A run makes a true mark of the label of this id.
    Label(u32),
    /// One run makes true marks of these labels, in this order.
    Seq(Vec<Member>),
    /// The term, where these conditions hold of the values that it binds.
    Guard(Box<Term>, Vec<Cond>),
    /// Each of these terms, with one value for each name.
    All(Vec<Term>),
    /// One of these terms.
    Any(Vec<Term>),
}

/// A label of a sequence, and those of which no true mark is made between the label before and this one.
#[derive(Drop)]
pub struct Member {
    pub before: Vec<u32>,
    pub label: u32,
}

/// A condition of a guard. The operator is a relation.
#[derive(Drop)]
pub struct Cond {
    pub left: Atom,
    pub op: Op,
    pub right: Atom,
}

/// A name that a label binds, or a number.
#[derive(Drop)]
pub enum Atom {
    Name(Name),
    Number(i64),
}
