//! The tokens of lexemes, without what is skipped.

ghost use Rattle.std.specs.Prelude.{◌≡◌, false, drop, ◌<◌, ◌≤◌, ◌+◌, ◌^◌, map, length, IfSome, IfOk, IfErr, MatchOption, MatchResult};
ghost use Rattle.lt_token.specs.Tokens as spec;
ghost use Rattle.lt_lex.specs.Views.{lexeme_of, token_of};
ghost use Rattle.lt_lex.specs.Steps.{StopsAt, IsTaken, Refuses};
ghost use Rattle.lt_token.specs.declared.lexeme.Role.TheVariants as the_role;
ghost use Rattle.lt_lex.specs.declared.stop.LexStop.TheVariants as the_stop;

use crate::cut::Lexeme;
use crate::stop::LexStop;
use crate::token::Token;
use lt_model::Name;
use lt_token::{
    Kind, Role, Sort, is_assembler, is_attribute, is_keyword, is_skipped, is_unsupported,
};
use std::alloc::Global;

fn opens(lexeme: &Lexeme) -> bool
    ensures { result ≡ spec.opens (lexeme_of lexeme.now) }
{
    match lexeme.sort {
        Sort::Punctuator => lexeme.text == b"(".as_slice(),
        _ => false,
    }
}

fn closes(lexeme: &Lexeme) -> bool
    ensures { result ≡ spec.closes (lexeme_of lexeme.now) }
{
    match lexeme.sort {
        Sort::Punctuator => lexeme.text == b")".as_slice(),
        _ => false,
    }
}

fn depth_after(depth: usize, lexeme: &Lexeme) -> usize
    requires room { depth + 1 < 2 ^ 64 }
    requires open { 0 < depth }
    ensures value { result ≡ spec.depth_after depth (lexeme_of lexeme.now) }
    ensures most { result ≤ depth + 1 }
{
    if opens(lexeme) {
        depth + 1
    } else if closes(lexeme) {
        depth - 1
    } else {
        depth
    }
}

/// How many lexemes there are up to the closing of one open parenthesis.
fn closing_len(lexemes: &[Lexeme]) -> Option<usize>
    ensures value { MatchOption result (spec.after_closing 1 (map lexeme_of lexemes.now) ≡ None) (λ len. spec.after_closing 1 (map lexeme_of lexemes.now) ≡ Some (drop len (map lexeme_of lexemes.now))) }
    ensures within { IfSome result (λ len. len ≤ length lexemes.now) }
{
    let mut depth = 1;
    for (at, lexeme) in lexemes.iter().enumerate() {
        depth = depth_after(depth, lexeme);
        if depth == 0 {
            return Some(at + 1);
        }
    }
    None
}

/// How many lexemes the balanced parentheses at the front are.
fn group_len(lexemes: &[Lexeme]) -> Option<usize>
    ensures value { MatchOption result (spec.after_group (map lexeme_of lexemes.now) ≡ None) (λ len. spec.after_group (map lexeme_of lexemes.now) ≡ Some (drop len (map lexeme_of lexemes.now))) }
    ensures within { IfSome result (λ len. len ≤ length lexemes.now) }
{
    let (first, rest) = lexemes.split_first()?;
    if opens(first) {
        Some(1 + closing_len(rest)?)
    } else {
        None
    }
}

fn role_of_word(trails: bool, word: &[u8]) -> Role
    ensures { result ≡ spec.role_of_word trails word.now }
{
    if is_skipped(word) {
        Role::Skipped
    } else if is_attribute(word) {
        Role::SkippedGroup
    } else if is_assembler(word) {
        if trails {
            Role::SkippedGroup
        } else {
            Role::Unsupported
        }
    } else if is_unsupported(word) {
        Role::Unsupported
    } else if is_keyword(word) {
        Role::Token(Kind::Keyword)
    } else {
        Role::Token(Kind::Identifier)
    }
}

/// What becomes of a lexeme; `trails` says that it stands directly behind an identifier, `)` or `]`.
pub fn role_of(trails: bool, sort: Sort, text: &[u8]) -> Role
    ensures { result ≡ spec.role_of trails sort text.now }
{
    match sort {
        Sort::Word => role_of_word(trails, text),
        Sort::Integer => Role::Token(Kind::Integer),
        Sort::Character => Role::Token(Kind::Character),
        Sort::Text => Role::Token(Kind::Text),
        Sort::Punctuator => Role::Token(Kind::Punctuator),
        Sort::Foreign => Role::Unsupported,
        Sort::Malformed => Role::Malformed,
    }
}

/// Whether what stands directly behind this token trails.
pub fn trails_after(kind: Kind, text: &[u8]) -> bool
    ensures { result ≡ spec.trails_after kind text.now }
{
    match kind {
        Kind::Identifier => true,
        Kind::Punctuator => text == b")".as_slice() || text == b"]".as_slice(),
        _ => false,
    }
}

fn unsupported(alloc: Global, lexeme: &Lexeme) -> LexStop
    ensures { Refuses the_role.Unsupported None (lexeme_of lexeme.now) result }
{
    match Name::new(alloc, lexeme.text) {
        Ok(name) => LexStop::Unsupported(name, lexeme.at),
        Err(_) => LexStop::NoMemory,
    }
}

/// How many lexemes the group behind a lexeme is.
fn skip_group(first: &Lexeme, after: &[Lexeme]) -> Result<usize, LexStop>
    ensures value { MatchResult result (λ len. spec.after_group (map lexeme_of after.now) ≡ Some (drop len (map lexeme_of after.now))) (λ e. (spec.after_group (map lexeme_of after.now) ≡ None) × (e ≡ the_stop.Lex first.now.at)) }
    ensures within { IfOk result (λ len. len ≤ length after.now) }
{
    match group_len(after) {
        Some(len) => Ok(len),
        None => Err(LexStop::Lex(first.at)),
    }
}

/// Takes a lexeme by its role, and gives how many behind it are skipped with it. `trails` says whether
/// an `asm` trails there.
fn take_lexeme<'a>(
    alloc: Global,
    tokens: &mut Vec<Token<'a>>,
    trails: &mut bool,
    first: &Lexeme<'a>,
    after: &[Lexeme<'a>],
) -> Result<usize, LexStop>
    ensures ok { IfOk result (λ len. IsTaken (spec.role_of trails.old first.now.sort first.now.text.now) (spec.after_group (map lexeme_of after.now)) trails.old (lexeme_of first.now) (map lexeme_of after.now) (map token_of tokens.old.items) (map token_of tokens.new.items) trails.new (drop len (map lexeme_of after.now))) }
    ensures within { IfOk result (λ len. len ≤ length after.now) }
    ensures err { IfErr result (λ e. Refuses (spec.role_of trails.old first.now.sort first.now.text.now) (spec.after_group (map lexeme_of after.now)) (lexeme_of first.now) e) }
{
    match role_of(*trails, first.sort, first.text) {
        Role::Token(kind) => {
            let token = Token {
                kind,
                text: first.text,
                at: first.at,
            };
            tokens.push(token)?;
            *trails = trails_after(kind, first.text);
            Ok(0)
        }
        Role::Skipped => Ok(0),
        Role::SkippedGroup => skip_group(first, after),
        Role::Unsupported => Err(unsupported(alloc, first)),
        Role::Malformed => Err(LexStop::Lex(first.at)),
    }
}

/// The tokens of the lexemes.
pub fn read<'a>(alloc: Global, lexemes: &[Lexeme<'a>]) -> Result<Vec<Token<'a>>, LexStop>
    ensures { MatchResult result (λ tokens. spec.Reads false (map lexeme_of lexemes.now) (map token_of tokens.items) None) (StopsAt (map lexeme_of lexemes.now)) }
{
    let mut tokens = Vec::new(alloc);
    let mut trails = false;
    let mut at = 0;
    while at < lexemes.len() {
        let (_, after) = lexemes.split_at(at + 1);
        let len = take_lexeme(alloc, &mut tokens, &mut trails, &lexemes[at], after)?;
        at = at + 1 + len;
    }
    Ok(tokens)
}
