use crate::kind::Kind;

/// What a piece is that isn't skipped as a separator.
#[derive(Clone, Copy, Debug)]
pub enum Sort {
    Word,
    Integer,
    Character,
    Text,
    Punctuator,
    /// A floating constant, or a literal with a prefix.
    Foreign,
    /// A malformed constant or `#` line, an open string or comment, or a byte that begins no piece.
    Malformed,
}

/// What becomes of a lexeme.
#[derive(Clone, Copy, Debug)]
pub enum Role {
    Token(Kind),
    Skipped,
    /// Skipped with the parentheses that follow.
    SkippedGroup,
    Unsupported,
    Malformed,
}

/// What a token does to the levels of brackets around it.
#[derive(Clone, Copy, Debug)]
pub enum Step {
    Opens,
    /// `)` or `]`, which counts in the level that it returns to.
    Returns,
    /// `}`.
    EndsBlock,
    /// `;`.
    EndsStatement,
    /// `,`.
    Separates,
    Counts,
    Passes,
}
