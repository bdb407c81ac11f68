//! The tables of words, and what a word is among them.

ghost use Rattle.std.specs.Prelude.{◌≡◌, ◌||◌, map};
ghost use Rattle.lt_token.specs.Words as spec;

const KEYWORDS: [&[u8]; 44] = [
    b"auto",
    b"break",
    b"case",
    b"char",
    b"const",
    b"continue",
    b"default",
    b"do",
    b"double",
    b"else",
    b"enum",
    b"extern",
    b"float",
    b"for",
    b"goto",
    b"if",
    b"inline",
    b"int",
    b"long",
    b"register",
    b"restrict",
    b"return",
    b"short",
    b"signed",
    b"sizeof",
    b"static",
    b"struct",
    b"switch",
    b"typedef",
    b"union",
    b"unsigned",
    b"void",
    b"volatile",
    b"while",
    b"_Alignas",
    b"_Alignof",
    b"_Atomic",
    b"_Bool",
    b"_Complex",
    b"_Generic",
    b"_Imaginary",
    b"_Noreturn",
    b"_Static_assert",
    b"_Thread_local",
];

const RESPELLED: [&[u8]; 3] = [b"__const", b"__volatile__", b"__signed__"];

const SKIPPED: [&[u8]; 6] = [
    b"__extension__",
    b"__inline",
    b"__inline__",
    b"__restrict",
    b"__restrict__",
    b"restrict",
];

const ATTRIBUTES: [&[u8]; 1] = [b"__attribute__"];

const ASSEMBLERS: [&[u8]; 3] = [b"__asm__", b"__asm", b"asm"];

const UNSUPPORTED: [&[u8]; 19] = [
    b"union",
    b"goto",
    b"_Atomic",
    b"_Thread_local",
    b"__thread",
    b"_Complex",
    b"__complex__",
    b"_Imaginary",
    b"_Generic",
    b"_Alignas",
    b"_Alignof",
    b"__alignof__",
    b"_Static_assert",
    b"typeof",
    b"__typeof__",
    b"__builtin_va_arg",
    b"__label__",
    b"__int128",
    b"_Float128",
];

// The names of annotations.
const ANNOTATIONS: [&[u8]; 4] = [b"pc_label", b"pc_label_bind", b"pc_decide", b"pc_after"];

/// Whether a word is in a table.
pub fn is_among(mut table: &[&[u8]], word: &[u8]) -> bool
    ensures { result ≡ spec.is_among word.now (map (λ w. w.now) table.entry.now) }
{
    while let [first, rest @ ..] = table {
        if word == *first {
            return true;
        }
        table = rest;
    }
    false
}

#[tactic(auto, unfolding(crate::specs::Words::keywords))]
fn is_plain_keyword(word: &[u8]) -> bool
    ensures { result ≡ spec.is_among word.now spec.keywords }
{
    is_among(&KEYWORDS, word)
}

#[tactic(auto, unfolding(crate::specs::Words::respelled, crate::specs::Words::spells_const, crate::specs::Words::spells_volatile, crate::specs::Words::spells_signed))]
fn is_respelled(word: &[u8]) -> bool
    ensures { result ≡ spec.is_among word.now spec.respelled }
{
    is_among(&RESPELLED, word)
}

/// Whether a word is a keyword, C11 6.4.1, or another spelling of one.
pub fn is_keyword(word: &[u8]) -> bool
    ensures { result ≡ spec.is_among word.now spec.keywords || spec.is_among word.now spec.respelled }
{
    is_plain_keyword(word) || is_respelled(word)
}

/// Whether a word is read and leaves nothing.
#[tactic(auto, unfolding(crate::specs::Words::skipped))]
pub fn is_skipped(word: &[u8]) -> bool
    ensures { result ≡ spec.is_among word.now spec.skipped }
{
    is_among(&SKIPPED, word)
}

/// Whether a word is skipped with the parentheses behind it.
#[tactic(auto, unfolding(crate::specs::Words::attributes))]
pub fn is_attribute(word: &[u8]) -> bool
    ensures { result ≡ spec.is_among word.now spec.attributes }
{
    is_among(&ATTRIBUTES, word)
}

/// Whether a word begins text for an assembler.
#[tactic(auto, unfolding(crate::specs::Words::assemblers))]
pub fn is_assembler(word: &[u8]) -> bool
    ensures { result ≡ spec.is_among word.now spec.assemblers }
{
    is_among(&ASSEMBLERS, word)
}

/// Whether a word begins what we don't accept.
#[tactic(auto, unfolding(crate::specs::Words::unsupported))]
pub fn is_unsupported(word: &[u8]) -> bool
    ensures { result ≡ spec.is_among word.now spec.unsupported }
{
    is_among(&UNSUPPORTED, word)
}

#[tactic(auto, unfolding(crate::specs::Words::annotations))]
fn is_annotation(word: &[u8]) -> bool
    ensures { result ≡ spec.is_among word.now spec.annotations }
{
    is_among(&ANNOTATIONS, word)
}

/// Whether a word has the form of an identifier and is none.
pub fn is_no_identifier(word: &[u8]) -> bool
    ensures { result ≡ spec.is_no_identifier word.now }
{
    is_keyword(word)
        || is_skipped(word)
        || is_attribute(word)
        || is_assembler(word)
        || is_unsupported(word)
        || is_annotation(word)
}
