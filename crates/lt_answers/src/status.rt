use lt_model::Name;

/// Why a command was refused.
#[derive(Debug, Drop)]
pub enum Refusal {
    /// No token begins at this byte.
    Lex(u32),
    /// The word at this byte isn't supported.
    Unsupported(Name, u32),
    /// The token at this byte nests too deeply.
    TooNested(u32),
    /// The tokens derive no unit; a token's byte, or the text's length.
    Syntax(u32),
    /// The rule of typing with this number is broken at the node that begins at this byte.
    Typing(u8, u32),
    /// No function may be an entry.
    NoEntry,
    /// The first line of the entry's specification that is none in its place.
    Spec(u32),
    /// The first line of the suite that is none in its place.
    Suite(u32),
    /// The first row of a coverage file that breaks the grammar.
    Cover(u32),
    /// The least label, hyperlabel or test on which the old and the new coverage don't agree.
    Mixed(u32),
    MixedHyper(u32),
    MixedTest(Name),
    /// The annotated text nests this deep, deeper than a text may.
    Grown(u64),
}

/// How a command ends.
#[derive(Debug, Drop)]
pub enum Status {
    /// The text that the command defines was put.
    Done,
    Refused(Refusal),
    /// The words are of no command form.
    Usage,
    /// No file has this name.
    Absent(Name),
    /// The file has so many bytes, more than are read.
    TooLong(Name, u64),
    /// Reading a file failed.
    ReadFault,
    /// Writing failed, and a front of the text may have been put.
    WriteFault,
    NoMemory,
}
