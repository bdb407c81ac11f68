ghost use Rattle.std.specs.Prelude.{◌<◌, ◌^◌};

use lt_model::Name;
use lt_tree::Expr;

/// How a new mark stands at its place.
#[derive(Clone, Copy, PartialEq, Eq, Debug)]
pub enum Form {
    /// A label as a statement, at the start of a function's body.
    AtStart,
    /// A label in front of an expression.
    InFront,
    /// A `pc_decide` around an expression.
    Around,
}

/// A mark that is to be placed.
#[derive(Drop)]
pub struct NewMark {
    /// The number of the node where it stands.
    pub place: u64,
    pub form: Form,
    /// What has to be true; nothing reads it where the form is `Around`.
    pub predicate: Expr,
    /// The id of a label; a `pc_decide` has the next one too.
    pub id: u32,
    pub tag: Name,
    ghost in_range: { place < 2 ^ 64 },
}
