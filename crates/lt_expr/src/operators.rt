ghost use Rattle.std.specs.Prelude.{◌≡◌, ◌≤◌, Some, None, IfSome, option_map};
ghost use Rattle.lt_tree.specs.Operators as spec;
ghost use Rattle.lt_tree.specs.Ahead as ahead;
ghost use Rattle.lt_expr.specs.Infixes.{infix_shown};

use lt_model::Op;
use lt_tree::{LogicalOp, Storage, Terminal, TypeWord, UnaryOp};

/// An operator between two operands, other than assignments and the comma.
#[derive(Clone, Copy, Debug)]
pub enum Infix {
    Arithmetic(Op),
    Connective(LogicalOp),
}

/// The operator that a terminal is, and how tightly it binds.
pub fn infix_of(terminal: Terminal) -> Option<(Infix, usize)>
    ensures value { option_map (λ o. (infix_shown o.0, o.1)) result ≡ spec.infix_of terminal }
    ensures small { IfSome result (λ o. o.1 ≤ 9) }
{
    match terminal {
        Terminal::OrOr => Some((Infix::Connective(LogicalOp::Or), 0)),
        Terminal::AndAnd => Some((Infix::Connective(LogicalOp::And), 1)),
        Terminal::Bar => Some((Infix::Arithmetic(Op::Or), 2)),
        Terminal::Caret => Some((Infix::Arithmetic(Op::Xor), 3)),
        Terminal::Ampersand => Some((Infix::Arithmetic(Op::And), 4)),
        Terminal::EqualEqual => Some((Infix::Arithmetic(Op::Eq), 5)),
        Terminal::NotEqual => Some((Infix::Arithmetic(Op::Ne), 5)),
        Terminal::Less => Some((Infix::Arithmetic(Op::Lt), 6)),
        Terminal::Greater => Some((Infix::Arithmetic(Op::Gt), 6)),
        Terminal::LessEqual => Some((Infix::Arithmetic(Op::Le), 6)),
        Terminal::GreaterEqual => Some((Infix::Arithmetic(Op::Ge), 6)),
        Terminal::ShiftLeft => Some((Infix::Arithmetic(Op::Shl), 7)),
        Terminal::ShiftRight => Some((Infix::Arithmetic(Op::Shr), 7)),
        Terminal::Plus => Some((Infix::Arithmetic(Op::Add), 8)),
        Terminal::Minus => Some((Infix::Arithmetic(Op::Sub), 8)),
        Terminal::Star => Some((Infix::Arithmetic(Op::Mul), 9)),
        Terminal::Slash => Some((Infix::Arithmetic(Op::Div), 9)),
        Terminal::Percent => Some((Infix::Arithmetic(Op::Rem), 9)),
        _ => None,
    }
}

/// The operator that stands before its operand.
pub fn prefix_of(terminal: Terminal) -> Option<UnaryOp>
    ensures { result ≡ spec.prefix_of terminal }
{
    match terminal {
        Terminal::Ampersand => Some(UnaryOp::AddressOf),
        Terminal::Star => Some(UnaryOp::Dereference),
        Terminal::Plus => Some(UnaryOp::Plus),
        Terminal::Minus => Some(UnaryOp::Minus),
        Terminal::Tilde => Some(UnaryOp::Complement),
        Terminal::Exclamation => Some(UnaryOp::Not),
        _ => None,
    }
}

/// The assignment that a terminal is, with the operator that it applies first, if there is one.
pub fn assignment_of(terminal: Terminal) -> Option<Option<Op>>
    ensures { result ≡ spec.assignment_of terminal }
{
    match terminal {
        Terminal::Equal => Some(None),
        Terminal::StarEqual => Some(Some(Op::Mul)),
        Terminal::SlashEqual => Some(Some(Op::Div)),
        Terminal::PercentEqual => Some(Some(Op::Rem)),
        Terminal::PlusEqual => Some(Some(Op::Add)),
        Terminal::MinusEqual => Some(Some(Op::Sub)),
        Terminal::ShiftLeftEqual => Some(Some(Op::Shl)),
        Terminal::ShiftRightEqual => Some(Some(Op::Shr)),
        Terminal::AmpersandEqual => Some(Some(Op::And)),
        Terminal::CaretEqual => Some(Some(Op::Xor)),
        Terminal::BarEqual => Some(Some(Op::Or)),
        _ => None,
    }
}

pub fn storage_of(terminal: Terminal) -> Option<Storage>
    ensures { result ≡ spec.storage_of terminal }
{
    match terminal {
        Terminal::Typedef => Some(Storage::Typedef),
        Terminal::Extern => Some(Storage::Extern),
        Terminal::Static => Some(Storage::Static),
        Terminal::Auto => Some(Storage::Auto),
        Terminal::Register => Some(Storage::Register),
        _ => None,
    }
}

pub fn type_word_of(terminal: Terminal) -> Option<TypeWord>
    ensures { result ≡ spec.type_word_of terminal }
{
    match terminal {
        Terminal::Void => Some(TypeWord::Void),
        Terminal::Char => Some(TypeWord::Char),
        Terminal::Short => Some(TypeWord::Short),
        Terminal::Int => Some(TypeWord::Int),
        Terminal::Long => Some(TypeWord::Long),
        Terminal::Float => Some(TypeWord::Float),
        Terminal::Double => Some(TypeWord::Double),
        Terminal::Signed => Some(TypeWord::Signed),
        Terminal::Unsigned => Some(TypeWord::Unsigned),
        Terminal::Bool => Some(TypeWord::Bool),
        _ => None,
    }
}

/// Whether a word may stand among specifiers wherever it stands.
pub fn is_specifier_word(terminal: Terminal) -> bool
    ensures { result ≡ ahead.is_specifier_word terminal }
{
    match terminal {
        Terminal::Inline
        | Terminal::Noreturn
        | Terminal::Const
        | Terminal::Volatile
        | Terminal::Struct
        | Terminal::Enum => true,
        _ => storage_of(terminal).is_some() || type_word_of(terminal).is_some(),
    }
}

/// Whether a terminal is an operator, before, between or behind operands.
pub fn is_operator(terminal: Terminal) -> bool
    ensures { result ≡ ahead.is_operator terminal }
{
    match terminal {
        Terminal::Increment | Terminal::Decrement | Terminal::Sizeof => true,
        _ => infix_of(terminal).is_some()
            || prefix_of(terminal).is_some()
            || assignment_of(terminal).is_some(),
    }
}
