//! What of a text is no token.

ghost use Rattle.std.specs.Prelude.{◌≡◌, ◌<◌, ◌≤◌, ◌+◌, ◌^◌, codes};
ghost use Rattle.lt_token.specs.Tokens.{is_mark};
ghost use Rattle.lt_nest.specs.Walk as spec;
ghost use Rattle.lt_nest.specs.Views.{inner_of};

use lt_lex::role_of;
use lt_token::{Kind, Role, Sort};

/// What is skipped from a place on.
#[derive(Clone, Copy)]
pub enum Skipping {
    Nothing,
    /// A group of parentheses, which begins here.
    Group,
    /// What is left of a group with so many parentheses open inside of it.
    Inside(u64),
}

/// What a lexeme is.
#[derive(Clone, Copy)]
pub enum Taken {
    Token(Kind),
    /// No token; then this is skipped.
    Skipped(Skipping),
    /// The text isn't tokens.
    Refused,
}

fn opens(sort: Sort, text: &[u8]) -> bool
    ensures { result ≡ is_mark (codes "(") sort text.now }
{
    match sort {
        Sort::Punctuator => text == b"(".as_slice(),
        _ => false,
    }
}

fn closes(sort: Sort, text: &[u8]) -> bool
    ensures { result ≡ is_mark (codes ")") sort text.now }
{
    match sort {
        Sort::Punctuator => text == b")".as_slice(),
        _ => false,
    }
}

fn closed(inner: u64) -> Skipping
    ensures { result ≡ spec.closed inner }
{
    if inner == 0 {
        Skipping::Nothing
    } else {
        Skipping::Inside(inner - 1)
    }
}

fn inside(inner: u64, sort: Sort, text: &[u8]) -> Skipping
    requires { inner + 1 < 2 ^ 64 }
    ensures { result ≡ spec.inside inner sort text.now }
{
    if opens(sort, text) {
        Skipping::Inside(inner + 1)
    } else if closes(sort, text) {
        closed(inner)
    } else {
        Skipping::Inside(inner)
    }
}

/// What a lexeme is that stands where this is skipped; `trails` says that it stands directly behind an
/// identifier, `)` or `]`.
pub fn taken_where(skipping: Skipping, trails: bool, sort: Sort, text: &[u8]) -> Taken
    requires { inner_of skipping + 1 < 2 ^ 64 }
    ensures { result ≡ spec.taken_where skipping trails sort text.now }
{
    match skipping {
        Skipping::Nothing => match role_of(trails, sort, text) {
            Role::Token(kind) => Taken::Token(kind),
            Role::Skipped => Taken::Skipped(Skipping::Nothing),
            Role::SkippedGroup => Taken::Skipped(Skipping::Group),
            Role::Unsupported | Role::Malformed => Taken::Refused,
        },
        Skipping::Group => {
            if opens(sort, text) {
                Taken::Skipped(Skipping::Inside(0))
            } else {
                Taken::Refused
            }
        }
        Skipping::Inside(inner) => Taken::Skipped(inside(inner, sort, text)),
    }
}
