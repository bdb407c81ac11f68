/// What a byte can begin.
#[derive(Clone, Copy, Debug)]
pub enum Class {
    Letter,
    Digit,
    Dot,
    Blank,
    Quote,
    Apostrophe,
    Hash,
    Slash,
    Sign,
}

/// How a piece of the text is formed.
#[derive(Clone, Copy, Debug)]
pub enum Form {
    Word,
    Number,
    Character,
    /// A string, closed or not.
    Text,
    /// A character constant or a string behind `L`, `u`, `U` or `u8`.
    Prefixed,
    Punctuator,
    Blank,
    LineComment,
    /// From `/*` on, closed or not.
    BlockComment,
    /// A line that begins with `#`.
    Marker,
}

/// Where the next byte of a literal, a comment or a constant stands.
#[derive(Clone, Copy, Debug)]
pub enum Part {
    /// Between the quotes of a string.
    Text,
    TextEscape,
    TextHex,
    /// Behind the first quote of a character constant.
    Character,
    CharacterEscape,
    CharacterHex,
    /// Behind one hexadecimal digit of two.
    CharacterHexOne,
    /// Behind one octal digit of three.
    OctalOne,
    OctalTwo,
    /// Behind the one character.
    Single,
    Comment,
    /// In a comment, behind `*`.
    Star,
    /// Behind the whole literal or comment.
    Closed,
    /// Behind a lone `0`.
    Zero,
    Digits,
    /// Behind the point of a decimal constant.
    Fraction,
    /// Behind the letter of an exponent.
    Exponent,
    ExponentSign,
    ExponentDigits,
    /// Behind the suffix of a floating constant.
    Suffix,
    /// Behind `0x`.
    HexPrefix,
    Hex,
    /// Behind `0x.`.
    HexPoint,
    HexFraction,
    /// Behind the `p` of a hexadecimal constant with a point.
    HexExponent,
    /// Behind a letter or digit that the constant runs into.
    Tail,
    /// No constant, literal or comment begins so.
    Nothing,
}
