//! The lines `require`.

ghost use Rattle.std.specs.Prelude.{◌≡◌, IfOk, List, map, option_map, false};
ghost use Rattle.std.specs.List.{list_all};
ghost use Rattle.lt_tree.specs.Typing.Types.{is_integer};
ghost use Rattle.lt_entry.specs.SpecificationLines.{Line};
ghost use Rattle.lt_entry.specs.Conditions.{each_named, is_term, is_small_factor, fits_in};
ghost use Rattle.lt_entry.specs.Views.{numeral_view};
ghost use Rattle.lt_entry.specs.LineViews.{term_view, addend_view, require_view};
ghost use Rattle.lt_input_names.specs.Views.{AreNames, scope_of, named_at};

use lt_entry::{Addend, Numeral, RequireLine, Term};
use lt_input_names::{Names, Part};
use std::alloc::{AllocError, Global};

// Whether there are parts, and all are integers.
fn are_integers(names: &Names<'_>, parts: &[Part]) -> bool
    requires { AreNames names.now }
    ensures { result ≡ each_named (λ it. is_integer it.type) (map (named_at names.now) parts.now) }
{
    for part in parts {
        if names.scalar(part.ty).is_none() {
            return false;
        }
    }
    !parts.is_empty()
}

fn is_small_factor(factor: Option<Numeral>) -> bool
    ensures { result ≡ is_small_factor (option_map numeral_view factor) }
{
    match factor {
        None => true,
        Some(numeral) => numeral.size < 1 << 31,
    }
}

// Whether the place names an integer cell, and the factor is small.
fn is_term(alloc: Global, names: &Names<'_>, term: &Term<'_>) -> Result<bool, AllocError>
    requires { AreNames names.now }
    ensures { IfOk result (λ is. is ≡ is_term (scope_of names.now) (record { is_minus = false; term = term_view term.now })) }
{
    let parts = names.parts(alloc, &term.place)?;
    Ok(are_integers(names, parts.as_slice()) & is_small_factor(term.factor))
}

fn are_terms(alloc: Global, names: &Names<'_>, addends: &[Addend<'_>]) -> Result<bool, AllocError>
    requires { AreNames names.now }
    ensures { IfOk result (λ are. are ≡ list_all (is_term (scope_of names.now)) (map addend_view addends.now)) }
{
    for addend in addends {
        if !is_term(alloc, names, &addend.term)? {
            return Ok(false);
        }
    }
    Ok(true)
}

/// Whether the line fits.
pub fn require(alloc: Global, names: &Names<'_>, line: &RequireLine<'_>) -> Result<bool, AllocError>
    requires { AreNames names.now }
    ensures { IfOk result (λ fits. (before : List Line) → fits ≡ fits_in (scope_of names.now) before (require_view line.now)) }
{
    if line.others.len() > 15 || line.constant.size >= 1 << 63 {
        return Ok(false);
    }
    if !is_term(alloc, names, &line.first)? {
        return Ok(false);
    }
    are_terms(alloc, names, line.others.as_slice())
}
