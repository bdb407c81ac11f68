//! The tables of punctuators, suffixes and prefixes, and what a word is among them.

ghost use Rattle.std.specs.Prelude.{◌≡◌, ◌||◌, map, nat_eq};
ghost use Rattle.std.specs.Str.{bytes_eq};
ghost use Rattle.lt_token.specs.Words as spec;
ghost use Rattle.lt_token.specs.Lexemes.{begins_with_any};
ghost use Rattle.lt_token.specs.Nest as nest;
ghost use Rattle.lt_lex.specs.Front.{longest_front};

use lt_token::is_among;

const PUNCTUATORS: [&[u8]; 46] = [
    b"[", b"]", b"(", b")", b"{", b"}", b".", b"->", b"++", b"--", b"&", b"*", b"+", b"-", b"~",
    b"!", b"/", b"%", b"<<", b">>", b"<", b">", b"<=", b">=", b"==", b"!=", b"^", b"|", b"&&",
    b"||", b"?", b":", b";", b"...", b"=", b"*=", b"/=", b"%=", b"+=", b"-=", b"<<=", b">>=",
    b"&=", b"^=", b"|=", b",",
];

const DIRECTIVES: [&[u8]; 3] = [b"line", b"pragma", b"ident"];

const INTEGER_SUFFIXES: [&[u8]; 23] = [
    b"", b"u", b"U", b"l", b"L", b"ll", b"LL", b"ul", b"uL", b"Ul", b"UL", b"ull", b"uLL", b"Ull",
    b"ULL", b"lu", b"lU", b"Lu", b"LU", b"llu", b"llU", b"LLu", b"LLU",
];

const LITERAL_PREFIXES: [&[u8]; 4] = [b"u8", b"u", b"U", b"L"];

const OPENINGS: [&[u8]; 3] = [b"(", b"[", b"{"];

const COUNTED: [&[u8]; 7] = [
    b"if", b"while", b"for", b"do", b"switch", b"else", b"sizeof",
];

fn begins_with_any(mut table: &[&[u8]], text: &[u8]) -> bool
    ensures { result ≡ begins_with_any text.now (map (λ w. w.now) table.entry.now) }
{
    while let [first, rest @ ..] = table {
        if text.starts_with(first) {
            return true;
        }
        table = rest;
    }
    false
}

/// The length of the longest word of the table that the text begins with.
fn longest_front(mut table: &[&[u8]], text: &[u8]) -> usize
    ensures { result ≡ longest_front (map (λ w. w.now) table.entry.now) text.now }
{
    let mut longest = 0;
    while let [first, rest @ ..] = table {
        if text.starts_with(first) {
            longest = longest.max(first.len());
        }
        table = rest;
    }
    longest
}

#[tactic(auto, unfolding(lt_token::specs::Words::punctuators))]
pub fn punctuator_len(text: &[u8]) -> usize
    ensures { result ≡ longest_front spec.punctuators text.now }
{
    longest_front(&PUNCTUATORS, text)
}

#[tactic(auto, unfolding(lt_token::specs::Words::directives))]
pub fn begins_with_directive(text: &[u8]) -> bool
    ensures { result ≡ begins_with_any text.now spec.directives }
{
    begins_with_any(&DIRECTIVES, text)
}

#[tactic(auto, unfolding(lt_token::specs::Words::integer_suffixes))]
pub fn is_integer_suffix(word: &[u8]) -> bool
    ensures { result ≡ spec.is_among word.now spec.integer_suffixes }
{
    is_among(&INTEGER_SUFFIXES, word)
}

#[tactic(auto, unfolding(lt_token::specs::Words::literal_prefixes))]
pub fn is_literal_prefix(word: &[u8]) -> bool
    ensures { result ≡ spec.is_among word.now spec.literal_prefixes }
{
    is_among(&LITERAL_PREFIXES, word)
}

#[tactic(auto, unfolding(lt_token::specs::Nest::openings))]
pub fn is_opening(word: &[u8]) -> bool
    ensures { result ≡ spec.is_among word.now nest.openings }
{
    is_among(&OPENINGS, word)
}

#[tactic(auto, unfolding(lt_token::specs::Nest::counted))]
pub fn is_counted(word: &[u8]) -> bool
    ensures { result ≡ spec.is_among word.now nest.counted }
{
    is_among(&COUNTED, word)
}

#[tactic(auto, unfolding(lt_token::specs::Words::spells_const))]
pub fn is_const_spelling(word: &[u8]) -> bool
    ensures { result ≡ bytes_eq word.now spec.spells_const }
{
    word == b"__const".as_slice()
}

#[tactic(auto, unfolding(lt_token::specs::Words::spells_volatile))]
pub fn is_volatile_spelling(word: &[u8]) -> bool
    ensures { result ≡ bytes_eq word.now spec.spells_volatile }
{
    word == b"__volatile__".as_slice()
}

#[tactic(auto, unfolding(lt_token::specs::Words::spells_signed))]
pub fn is_signed_spelling(word: &[u8]) -> bool
    ensures { result ≡ bytes_eq word.now spec.spells_signed }
{
    word == b"__signed__".as_slice()
}
