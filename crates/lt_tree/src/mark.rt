use crate::expression::Expr;
use lt_model::Name;

/// `pc_label`, or `pc_label_bind` where names are bound.
#[derive(Drop)]
#[cycle(tree)]
pub struct Mark {
    pub predicate: Expr,
    /// As written in the source.
    pub id: Name,
    pub tag: Name,
    pub bound: Vec<Binding>,
}

/// A name that a mark binds, and the expression whose value it gets.
#[derive(Drop)]
#[cycle(tree)]
pub struct Binding {
    pub name: Name,
    pub value: Expr,
}
