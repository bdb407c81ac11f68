//! The words of a row's fields, as they are written.

ghost use Rattle.std.specs.Prelude.{◌≡◌, ◌++◌, ◌∷◌, [], IfOk};
ghost use Rattle.lt_cover.specs.Coverage.Text.{run_word, end_word, label_word, names_text, state_word};

use crate::rows::{HyperState, TestEnd};
use lt_model::{End, Name, ub_number};
use std::alloc::{AllocError, Global};

// Two texts, one behind the other.
fn joined(alloc: Global, front: &[u8], back: &[u8]) -> Result<Vec<u8>, AllocError>
    ensures { IfOk result (λ v. v.items ≡ front.now ++ back.now) }
{
    let mut text = Vec::from_slice(alloc, front)?;
    text.extend_from_slice(back)?;
    Ok(text)
}

fn run_word(alloc: Global, end: &End) -> Result<Vec<u8>, AllocError>
    ensures { IfOk result (λ v. v.items ≡ run_word end.now) }
{
    match end {
        End::Returned => Vec::from_slice(alloc, b"returned"),
        End::Stopped => Vec::from_slice(alloc, b"stopped"),
        End::Undefined(kind) => {
            let number = ub_number(*kind).to_string(alloc)?;
            joined(alloc, b"undefined ", number.as_bytes())
        }
        End::NoInput(stub) => joined(alloc, b"no-input ", stub.as_slice()),
        End::Steps => Vec::from_slice(alloc, b"steps"),
        End::Deep => Vec::from_slice(alloc, b"deep"),
        End::Cells => Vec::from_slice(alloc, b"cells"),
    }
}

/// The word for how a test is over.
pub fn end_word(alloc: Global, end: &TestEnd) -> Result<Vec<u8>, AllocError>
    ensures { IfOk result (λ v. v.items ≡ end_word end.now) }
{
    match end {
        TestEnd::Ran(end) => run_word(alloc, end),
        TestEnd::Outside => Vec::from_slice(alloc, b"outside"),
    }
}

/// The word for a label with these covering tests.
pub fn label_word(by: &[Name]) -> &'static [u8]
    ensures { result.now ≡ label_word by.now }
{
    if by.is_empty() {
        b"uncovered"
    } else {
        b"covered"
    }
}

/// The names with a space between each two.
pub fn names_text(alloc: Global, names: &[Name]) -> Result<Vec<u8>, AllocError>
    ensures { IfOk result (λ v. v.items ≡ names_text names.now) }
{
    let mut text = Vec::new(alloc);
    let Some((first, rest)) = names.split_first() else {
        return Ok(text);
    };
    text.extend_from_slice(first.as_slice())?;
    'names: for name in rest {
        text.push(b' ')?;
        text.extend_from_slice(name.as_slice())?;
    }
    Ok(text)
}

/// The word for the state of a hyperlabel.
pub fn state_word(state: HyperState) -> &'static [u8]
    ensures { result.now ≡ state_word state }
{
    match state {
        HyperState::Uncovered => b"uncovered",
        HyperState::TooWide => b"too-wide",
        HyperState::Covered => b"covered",
    }
}
