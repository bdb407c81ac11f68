// The words of operators, storage classes and types.

ghost use Rattle.std.specs.Prelude.{◌≡◌};
ghost use Rattle.lt_tree.specs.Canon as spec;

use lt_model::Op;
use lt_tree::{LogicalOp, Storage, Terminal, TypeWord, UnaryOp};

pub fn sign_of_unary(op: UnaryOp) -> Terminal
    ensures { result ≡ spec.sign_of_unary op }
{
    match op {
        UnaryOp::AddressOf => Terminal::Ampersand,
        UnaryOp::Dereference => Terminal::Star,
        UnaryOp::Plus => Terminal::Plus,
        UnaryOp::Minus => Terminal::Minus,
        UnaryOp::Complement => Terminal::Tilde,
        UnaryOp::Not => Terminal::Exclamation,
    }
}

pub fn sign_of_binary(op: Op) -> Terminal
    ensures { result ≡ spec.sign_of_binary op }
{
    match op {
        Op::Add => Terminal::Plus,
        Op::Sub => Terminal::Minus,
        Op::Mul => Terminal::Star,
        Op::Div => Terminal::Slash,
        Op::Rem => Terminal::Percent,
        Op::Shl => Terminal::ShiftLeft,
        Op::Shr => Terminal::ShiftRight,
        Op::And => Terminal::Ampersand,
        Op::Or => Terminal::Bar,
        Op::Xor => Terminal::Caret,
        Op::Lt => Terminal::Less,
        Op::Le => Terminal::LessEqual,
        Op::Gt => Terminal::Greater,
        Op::Ge => Terminal::GreaterEqual,
        Op::Eq => Terminal::EqualEqual,
        Op::Ne => Terminal::NotEqual,
    }
}

pub fn sign_of_logical(op: LogicalOp) -> Terminal
    ensures { result ≡ spec.sign_of_logical op }
{
    match op {
        LogicalOp::And => Terminal::AndAnd,
        LogicalOp::Or => Terminal::OrOr,
    }
}

/// A simple assignment, or one with an operator; a relation has none.
pub fn sign_of_assignment(op: Option<Op>) -> Terminal
    ensures { result ≡ spec.sign_of_assignment op }
{
    match op {
        None => Terminal::Equal,
        Some(Op::Mul) => Terminal::StarEqual,
        Some(Op::Div) => Terminal::SlashEqual,
        Some(Op::Rem) => Terminal::PercentEqual,
        Some(Op::Add) => Terminal::PlusEqual,
        Some(Op::Sub) => Terminal::MinusEqual,
        Some(Op::Shl) => Terminal::ShiftLeftEqual,
        Some(Op::Shr) => Terminal::ShiftRightEqual,
        Some(Op::And) => Terminal::AmpersandEqual,
        Some(Op::Xor) => Terminal::CaretEqual,
        Some(Op::Or) => Terminal::BarEqual,
        Some(Op::Lt | Op::Le | Op::Gt | Op::Ge | Op::Eq | Op::Ne) => Terminal::Other,
    }
}

pub fn sign_of_storage(class: Storage) -> Terminal
    ensures { result ≡ spec.sign_of_storage class }
{
    match class {
        Storage::Typedef => Terminal::Typedef,
        Storage::Extern => Terminal::Extern,
        Storage::Static => Terminal::Static,
        Storage::Auto => Terminal::Auto,
        Storage::Register => Terminal::Register,
    }
}

pub fn sign_of_word(word: TypeWord) -> Terminal
    ensures { result ≡ spec.sign_of_word word }
{
    match word {
        TypeWord::Void => Terminal::Void,
        TypeWord::Char => Terminal::Char,
        TypeWord::Short => Terminal::Short,
        TypeWord::Int => Terminal::Int,
        TypeWord::Long => Terminal::Long,
        TypeWord::Float => Terminal::Float,
        TypeWord::Double => Terminal::Double,
        TypeWord::Signed => Terminal::Signed,
        TypeWord::Unsigned => Terminal::Unsigned,
        TypeWord::Bool => Terminal::Bool,
    }
}
