use crate::faults::Faults;
use lt_model::Name;
use lt_tree::typed::{Constancy, Place, TypeId, Value};

/// What an expression is.
#[derive(Drop)]
pub enum Form {
    Value(Box<Value>),
    Place(Box<Place>),
    /// The name of a function, which can only be called.
    Designator(Name, TypeId),
}

/// An expression with what it is as a constant.
#[derive(Drop)]
pub struct Typed {
    pub form: Form,
    pub is_register: bool,
    /// Whether it is a `pc_after` itself.
    pub is_after: bool,
    /// Of a place that of its address.
    pub constancy: Constancy,
    /// That of the expression without marks.
    pub erased: Constancy,
}

/// How the text around an expression uses it.
#[derive(Clone, Copy, PartialEq, Eq, Debug)]
pub enum Use {
    Value,
    /// Where a `pc_decide` may stand.
    Truth,
    /// As the place that it may be: nothing is read by itself.
    Place,
    Callee,
}

/// An expression, and the rules that its operator breaks.
#[derive(Drop)]
pub struct Judged {
    pub faults: Faults,
    pub typed: Box<Typed>,
}
