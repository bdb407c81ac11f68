//! What is cut off the front of a text, at once where it is a punctuator of one byte.

ghost use Rattle.std.specs.Prelude.{◌≡◌, ◌<◌, ◌≤◌, Bool, true, length, Some};
ghost use Rattle.lt_token.specs.declared.lexeme.Sort.TheVariants as the_sort;
ghost use Rattle.lt_lex.specs.Front.{first_cut};
ghost use Rattle.lt_nest.specs.Marks as spec;

use lt_lex::first_cut;
use lt_token::Sort;

/// Whether a byte is a punctuator that begins no longer one.
fn is_lone(b: u8) -> bool
    ensures { result ≡ spec.is_one_of spec.lone b }
{
    matches!(
        b,
        b'(' | b')' | b'{' | b'}' | b'[' | b']' | b';' | b',' | b'?' | b':' | b'~'
    )
}

/// Whether a byte is a punctuator that begins longer ones, and nothing else.
fn begins_longer(b: u8) -> bool
    ensures { result ≡ spec.is_one_of spec.beginning b }
{
    matches!(
        b,
        b'&' | b'*' | b'+' | b'-' | b'!' | b'%' | b'<' | b'>' | b'^' | b'|' | b'='
    )
}

/// Whether a byte can be the second one of a longer punctuator of those.
fn goes_on(b: u8) -> bool
    ensures { result ≡ spec.is_one_of spec.second b }
{
    matches!(b, b'=' | b'&' | b'|' | b'+' | b'-' | b'<' | b'>')
}

/// Whether the first two bytes tell that the text begins with a punctuator of one byte. It may begin with one where they don't.
fn is_short(text: &[u8]) -> bool
    ensures { (fresh : Bool) → result ≡ true → first_cut fresh text.now ≡ (Some the_sort.Punctuator, 1) }
{
    if text.len() < 2 {
        false
    } else {
        is_lone(text[0]) || (begins_longer(text[0]) && !goes_on(text[1]))
    }
}

/// What `first_cut` gives, which tries each punctuator at a text.
pub fn front_cut(fresh: bool, text: &[u8]) -> (Option<Sort>, usize)
    requires { 0 < length text.now }
    ensures value { result ≡ first_cut fresh text.now }
    ensures some { 0 < result.1 }
    ensures within { result.1 ≤ length text.now }
{
    if is_short(text) {
        (Some(Sort::Punctuator), 1)
    } else {
        first_cut(fresh, text)
    }
}
