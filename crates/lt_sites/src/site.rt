use lt_tree::{
    Declaration, Declarator, Enumerator, Expr, External, Initialiser, Label, Mark, Member, Stmt,
};

/// A node of a unit, where it lies. `lt_tree`'s `specs/Nodes.antt` says what is a node.
#[derive(Clone, Copy)]
pub enum NodeRef<'u> {
    External(&'u External),
    Declarator(&'u Declarator),
    Initialiser(&'u Initialiser),
    Member(&'u Member),
    Enumerator(&'u Enumerator),
    Label(&'u Label),
    /// A declaration as an item of a block.
    DeclaredItem(&'u Declaration),
    /// A statement as an item of a block.
    StatedItem(&'u Stmt),
    /// A mark as an item of a block.
    MarkedItem(&'u Mark),
    Statement(&'u Stmt),
    Expression(&'u Expr),
    Mark(&'u Mark),
}

/// A node, with what its part of the list holds.
#[derive(Clone, Copy)]
pub struct Site<'u> {
    pub node: NodeRef<'u>,
    /// How many nodes the part has that begins with this node.
    pub size: usize,
    /// Of a `for`, how many nodes stand before its first `;`; of others 0.
    pub head: usize,
}
