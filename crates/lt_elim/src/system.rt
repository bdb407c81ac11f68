// A system's own rows.
ghost use Rattle.std.specs.Prelude.{◌≡◌, ◌≤◌, ◌<◌, ◌^◌, ◌==◌, [], ◌∷◌, unsigned_abs, IfOk};
ghost use Rattle.lt_elim.specs.Divisor.{content};
ghost use Rattle.lt_elim.specs.Decision.{variables_in, variables};
ghost use Rattle.lt_elim.specs.Difference.{is_difference, are_differences};
ghost use Rattle.lt_elim.specs.Elimination.{keep, keep_all};
ghost use Rattle.lt_elim.specs.Progress.{outcome, AllInOrder, HaveContents};
ghost use Rattle.lt_elim.specs.Tracing.{Traces, Traced, TracedOn};

use crate::combination::Sum;
use crate::event::Event;
use crate::keep::keep;
use crate::kept::Kept;
use crate::log::Log;
use lt_lin::Row;
use std::alloc::{AllocError, Global};
use std::vec::Vec;

/// Keeps the system's rows in their order, unless an event comes.
pub(crate) fn keep_rows(
    alloc: Global,
    limited: bool,
    variable: u32,
    kept: &mut Kept,
    log: &mut Log,
    rows: &[Row],
) -> Result<Option<Event>, AllocError>
    requires { HaveContents rows.now }
    ensures kept { IfOk result (λ e. keep_all limited variable kept.old.rows rows.now ≡ outcome e kept.new.rows) }
    ensures traced { IfOk result (λ e. Traces rows.now rows.now log.old kept.old.numbered → Traced rows.now rows.now e log.new kept.new.numbered) }
{
    let Ok(count) = u32::try_from(rows.len()) else {
        return Err(AllocError);
    };
    'rows: for number in 0..count {
        let row = &rows[number as usize];
        let event = keep_row(alloc, limited, variable, kept, log, row, number)?;
        if event.is_some() {
            return Ok(event);
        }
    }
    Ok(None)
}

fn keep_row(
    alloc: Global,
    limited: bool,
    variable: u32,
    kept: &mut Kept,
    log: &mut Log,
    row: &Row,
    number: u32,
) -> Result<Option<Event>, AllocError>
    requires { content row.now.terms < 2 ^ 127 }
    ensures kept { IfOk result (λ e. keep limited variable kept.old.rows row.now ≡ outcome e kept.new.rows) }
    ensures traced { IfOk result (λ e. TracedOn log.old kept.old.numbered (record { row = row.now; number = number } ∷ []) e log.new kept.new.numbered) }
{
    let mut terms = Vec::new(alloc);
    terms.extend_from_slice(row.terms.as_slice())?;
    let constant = row.constant;
    let row = Sum { terms, constant };
    keep(alloc, limited, variable, kept, log, row, number)
}

/// How many variables there are: 0 to the greatest that stands in the rows.
pub(crate) fn variables(rows: &[Row]) -> u64
    ensures count { result ≡ variables rows.now }
    ensures bound { result ≤ 2 ^ 32 }
    ensures order { AllInOrder rows.now }
{
    let mut count = 0;
    let mut i = rows.len();
    'rows: while i > 0 {
        i -= 1;
        count = variables_in(rows[i].terms.as_slice()).max(count);
    }
    count
}

fn variables_in(terms: &[(u32, i128)]) -> u64
    ensures count { result ≡ variables_in terms.now }
    ensures bound { result ≤ 2 ^ 32 }
{
    let mut count = 0;
    let mut i = terms.len();
    'terms: while i > 0 {
        i -= 1;
        count = (u64::from(terms[i].0) + 1).max(count);
    }
    count
}

/// Whether each row is one of a difference system.
pub(crate) fn are_differences(rows: &[Row]) -> bool
    ensures { result ≡ are_differences rows.now }
{
    'rows: for row in rows {
        if !is_difference(row.terms.as_slice()) {
            return false;
        }
    }
    true
}

// No variable, one, or two with opposite signs, with factors 1 or -1.
fn is_difference(terms: &[(u32, i128)]) -> bool
    ensures { result ≡ is_difference terms.now }
{
    match terms {
        [] => true,
        [(_, factor)] => is_unit(*factor),
        [(_, first), (_, second)] => is_unit(*first) && is_unit(*second) && *first != *second,
        _ => false,
    }
}

fn is_unit(factor: i128) -> bool
    ensures { result ≡ (unsigned_abs factor == 1) }
{
    factor.unsigned_abs() == 1
}
