// What a token is to the grammar.

ghost use Rattle.std.specs.Prelude.{◌≡◌, map, IfOk};
ghost use Rattle.lt_token.specs.declared.kind.Kind.TheVariants as kind;
ghost use Rattle.lt_tree.specs.Symbols as s;
ghost use Rattle.lt_lex.specs.Views.{token_of};
ghost use Rattle.lt_expr.specs.Symbols.{shown};

use crate::symbol::Symbol;
use lt_lex::Token;
use lt_token::Kind;
use lt_tree::Terminal;
use std::alloc::{AllocError, Global};

const KEYWORDS: [(&[u8], Terminal); 33] = [
    (b"auto", Terminal::Auto),
    (b"break", Terminal::Break),
    (b"case", Terminal::Case),
    (b"char", Terminal::Char),
    (b"const", Terminal::Const),
    (b"continue", Terminal::Continue),
    (b"default", Terminal::Default),
    (b"do", Terminal::Do),
    (b"double", Terminal::Double),
    (b"else", Terminal::Else),
    (b"enum", Terminal::Enum),
    (b"extern", Terminal::Extern),
    (b"float", Terminal::Float),
    (b"for", Terminal::For),
    (b"if", Terminal::If),
    (b"inline", Terminal::Inline),
    (b"int", Terminal::Int),
    (b"long", Terminal::Long),
    (b"register", Terminal::Register),
    (b"return", Terminal::Return),
    (b"short", Terminal::Short),
    (b"signed", Terminal::Signed),
    (b"sizeof", Terminal::Sizeof),
    (b"static", Terminal::Static),
    (b"struct", Terminal::Struct),
    (b"switch", Terminal::Switch),
    (b"typedef", Terminal::Typedef),
    (b"unsigned", Terminal::Unsigned),
    (b"void", Terminal::Void),
    (b"volatile", Terminal::Volatile),
    (b"while", Terminal::While),
    (b"_Bool", Terminal::Bool),
    (b"_Noreturn", Terminal::Noreturn),
];

const PUNCTUATORS: [(&[u8], Terminal); 46] = [
    (b"[", Terminal::OpenIndex),
    (b"]", Terminal::CloseIndex),
    (b"(", Terminal::OpenParen),
    (b")", Terminal::CloseParen),
    (b"{", Terminal::OpenBrace),
    (b"}", Terminal::CloseBrace),
    (b".", Terminal::Dot),
    (b"->", Terminal::Arrow),
    (b"++", Terminal::Increment),
    (b"--", Terminal::Decrement),
    (b"&", Terminal::Ampersand),
    (b"*", Terminal::Star),
    (b"+", Terminal::Plus),
    (b"-", Terminal::Minus),
    (b"~", Terminal::Tilde),
    (b"!", Terminal::Exclamation),
    (b"/", Terminal::Slash),
    (b"%", Terminal::Percent),
    (b"<<", Terminal::ShiftLeft),
    (b">>", Terminal::ShiftRight),
    (b"<", Terminal::Less),
    (b">", Terminal::Greater),
    (b"<=", Terminal::LessEqual),
    (b">=", Terminal::GreaterEqual),
    (b"==", Terminal::EqualEqual),
    (b"!=", Terminal::NotEqual),
    (b"^", Terminal::Caret),
    (b"|", Terminal::Bar),
    (b"&&", Terminal::AndAnd),
    (b"||", Terminal::OrOr),
    (b"?", Terminal::Question),
    (b":", Terminal::Colon),
    (b";", Terminal::Semicolon),
    (b"...", Terminal::Ellipsis),
    (b"=", Terminal::Equal),
    (b"*=", Terminal::StarEqual),
    (b"/=", Terminal::SlashEqual),
    (b"%=", Terminal::PercentEqual),
    (b"+=", Terminal::PlusEqual),
    (b"-=", Terminal::MinusEqual),
    (b"<<=", Terminal::ShiftLeftEqual),
    (b">>=", Terminal::ShiftRightEqual),
    (b"&=", Terminal::AmpersandEqual),
    (b"^=", Terminal::CaretEqual),
    (b"|=", Terminal::BarEqual),
    (b",", Terminal::Comma),
];

const RESERVED: [(&[u8], Terminal); 4] = [
    (b"pc_label", Terminal::Label),
    (b"pc_label_bind", Terminal::LabelBind),
    (b"pc_decide", Terminal::Decide),
    (b"pc_after", Terminal::After),
];

// The terminal of the table that is written so.
fn spelt(mut table: &[(&[u8], Terminal)], word: &[u8]) -> Terminal
    requires { map (λ row. row.0.now) table.now ≡ map s.spelling (map (λ row. row.1) table.now) }
    ensures { result ≡ s.spelt (map (λ row. row.1) table.entry.now) word.now }
{
    while let [(spelling, terminal), rest @ ..] = table {
        if word == *spelling {
            return *terminal;
        }
        table = rest;
    }
    Terminal::Other
}

#[tactic(auto, unfolding(lt_tree::specs::Symbols::keywords))]
fn keyword(word: &[u8]) -> Terminal
    ensures { result ≡ s.spelt s.keywords word.now }
{
    spelt(&KEYWORDS, word)
}

#[tactic(auto, unfolding(lt_tree::specs::Symbols::punctuators))]
fn punctuator(text: &[u8]) -> Terminal
    ensures { result ≡ s.spelt s.punctuators text.now }
{
    spelt(&PUNCTUATORS, text)
}

#[tactic(auto, unfolding(lt_tree::specs::Symbols::reserved))]
fn reserved(word: &[u8]) -> Terminal
    ensures { result ≡ s.spelt s.reserved word.now }
{
    spelt(&RESERVED, word)
}

// An identifier, or the name of a mark.
fn named<'a>(terminal: Terminal, word: &'a [u8], at: u32) -> Symbol<'a>
    ensures { shown result ≡ s.named terminal (record { kind = kind.Identifier; text = word.now; at = at }) }
{
    match terminal {
        Terminal::Other => Symbol::Name(word, at),
        _ => Symbol::Sign(terminal, at),
    }
}

fn symbol_of<'a>(token: &Token<'a>) -> Symbol<'a>
    ensures { shown result ≡ s.symbol_of (token_of token.now) }
{
    match token.kind {
        Kind::Identifier => named(reserved(token.text), token.text, token.at),
        Kind::Keyword => Symbol::Sign(keyword(token.word()), token.at),
        Kind::Integer | Kind::Character => Symbol::Constant(token.text, token.at),
        Kind::Text => Symbol::Literal(token.text, token.at),
        Kind::Punctuator => Symbol::Sign(punctuator(token.text), token.at),
    }
}

/// Tokens as the grammar sees them.
#[tactic(auto, using(crate::proofs::Tables::pushed))]
pub fn symbols_of<'a>(alloc: Global, tokens: &[Token<'a>]) -> Result<Vec<Symbol<'a>>, AllocError>
    ensures { IfOk result (λ list. map shown list.items ≡ s.symbols (map token_of tokens.now)) }
{
    let mut symbols = Vec::new(alloc);
    'tokens: for token in tokens {
        symbols.push(symbol_of(token))?;
    }
    Ok(symbols)
}
