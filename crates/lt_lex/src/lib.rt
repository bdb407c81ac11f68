//! The lexer of C texts; specs/Lexed.antt says what it gives, and `lt_token` what tokens are.
#![tactic(auto)]

mod cut;
mod levels;
mod lexer;
mod part;
mod read;
mod scan;
mod stop;
mod token;
mod tokens;
mod words;

pub use cut::{first_cut, fresh_after};
pub use levels::step_of;
pub use lexer::{lex, nest};
pub use read::{role_of, trails_after};
pub use stop::LexStop;
pub use token::Token;
pub use tokens::Tokens;
