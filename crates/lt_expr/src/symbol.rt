use lt_tree::Terminal;

/// A token as the grammar sees it, with the byte that it begins at.
#[derive(Clone, Copy, Debug)]
pub enum Symbol<'a> {
    /// An identifier that isn't reserved.
    Name(&'a [u8], u32),
    /// An integer or character constant, as written.
    Constant(&'a [u8], u32),
    /// A string literal, as written, with its quotes.
    Literal(&'a [u8], u32),
    Sign(Terminal, u32),
}
