/// What a token is, as C11 6.4 has it.
#[derive(Clone, Copy, Debug, PartialEq, Eq)]
pub enum Kind {
    Identifier,
    Keyword,
    Integer,
    Character,
    Text,
    Punctuator,
}
