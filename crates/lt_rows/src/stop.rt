//! Why a row has no answer.

use lt_cover::CoverStop;
use lt_expr::ParseStop;
use lt_input_specs::NoSpec;
use lt_input_suites::NoSuite;
use lt_lex::LexStop;
use lt_spec_reader::NoSpecification;
use lt_type::TypeStop;
use std::alloc::{AllocError, AllocFailed};
use thiserror::Error;

/// What a row file has wrong, or where the way from a text to its answer ends.
#[derive(Clone, Copy, Debug, Error)]
pub enum Stop {
    #[error("no such question")]
    NoSuchQuestion,
    #[error("a row without a question")]
    NoQuestion,
    #[error("a row without an answer")]
    NoAnswer,
    #[error("a row without an end")]
    NoEnd,
    #[error("no such escape")]
    NoSuchEscape,
    #[error("no such name in scope")]
    NoSuchName,
    #[error("no line of three hyphens between two texts")]
    OneText,
    #[error("no such fault")]
    NoSuchFault,
    #[error("no such type")]
    NoSuchType,
    #[error("no such operator")]
    NoSuchOperator,
    /// No number of the type, or no such form.
    #[error("no number")]
    NoNumber,
    #[error("the text is too long")]
    TooLong,
    #[error("Lex")]
    Lex,
    #[error("Unsupported")]
    Unsupported,
    #[error("TooNested")]
    TooNested,
    #[error("Syntax")]
    Syntax,
    /// Neither at a token nor at the text's end.
    #[error("Syntax at byte {0}")]
    SyntaxElsewhere(u32),
    #[error("no node of this number")]
    NoSuchNode,
    #[error("rule {0}")]
    Broken(u8),
    #[error("Row {0}")]
    CoverageRow(u32),
    #[error("no entry")]
    NoEntry,
    #[error("entry line {0}")]
    EntryLine(u32),
    #[error("suite line {0}")]
    SuiteLine(u32),
    /// Words that are of no command form.
    #[error("Usage")]
    Usage,
    #[error("an id of a label passes the greatest")]
    LabelIds,
    #[error("the text isn't tokens")]
    NoTokens,
    #[error("the canonical text isn't printed as it stands")]
    NotCanonical,
    #[error("a mark is left in the erasure")]
    MarkLeft,
    #[error("NoMemory")]
    NoMemory,
}

impl From<AllocError> for Stop {
    fn from(_error: AllocError) -> Stop {
        Stop::NoMemory
    }
}

impl<T: Drop> From<AllocFailed<T>> for Stop {
    fn from(_error: AllocFailed<T>) -> Stop {
        Stop::NoMemory
    }
}

impl From<LexStop> for Stop {
    fn from(stop: LexStop) -> Stop {
        match stop {
            LexStop::Lex(_) => Stop::Lex,
            LexStop::Unsupported(_, _) => Stop::Unsupported,
            LexStop::TooNested(_) => Stop::TooNested,
            LexStop::NoMemory => Stop::NoMemory,
        }
    }
}

impl From<TypeStop> for Stop {
    fn from(stop: TypeStop) -> Stop {
        match stop {
            TypeStop::Broken(rule, _) => Stop::Broken(rule.number()),
            TypeStop::NoMemory => Stop::NoMemory,
        }
    }
}

impl From<CoverStop> for Stop {
    fn from(stop: CoverStop) -> Stop {
        match stop {
            CoverStop::Row(number) => Stop::CoverageRow(number),
            CoverStop::NoMemory => Stop::NoMemory,
        }
    }
}

impl From<NoSpec> for Stop {
    fn from(stop: NoSpec) -> Stop {
        match stop {
            NoSpec::NoEntry => Stop::NoEntry,
            NoSpec::NoMemory => Stop::NoMemory,
        }
    }
}

impl From<NoSpecification> for Stop {
    fn from(stop: NoSpecification) -> Stop {
        match stop {
            NoSpecification::Line(number) => Stop::EntryLine(number),
            NoSpecification::NoMemory => Stop::NoMemory,
        }
    }
}

impl From<NoSuite> for Stop {
    fn from(stop: NoSuite) -> Stop {
        match stop {
            NoSuite::Line(number) => Stop::SuiteLine(number),
            NoSuite::NoMemory => Stop::NoMemory,
        }
    }
}
