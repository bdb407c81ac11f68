// One more row is kept.
ghost use Rattle.std.specs.Prelude.{◌≡◌, ◌<◌, ◌^◌, [], ◌∷◌, IfOk};
ghost use Rattle.lt_elim.specs.Divisor.{content};
ghost use Rattle.lt_elim.specs.Elimination.{keep};
ghost use Rattle.lt_elim.specs.Progress.{outcome};
ghost use Rattle.lt_elim.specs.Tracing.{TracedOn};

use crate::combination::Sum;
use crate::event::Event;
use crate::kept::{Held, Kept};
use crate::log::{Log, log_division};
use crate::normal::normalise;
use std::alloc::{AllocError, Global};

/// The most rows that are kept.
const ROW_LIMIT: usize = 20_000;

/// Keeps a row of a known number, divided by the greatest common divisor of its factors, unless an event comes.
pub(crate) fn keep(
    alloc: Global,
    limited: bool,
    variable: u32,
    kept: &mut Kept,
    log: &mut Log,
    row: Sum,
    number: u32,
) -> Result<Option<Event>, AllocError>
    requires { content row.terms.items < 2 ^ 127 }
    ensures kept { IfOk result (λ e. keep limited variable kept.old.rows (record { terms = row.terms.items; constant = row.constant }) ≡ outcome e kept.new.rows) }
    ensures traced { IfOk result (λ e. TracedOn log.old kept.old.numbered (record { row = record { terms = row.terms.items; constant = row.constant }; number = number } ∷ []) e log.new kept.new.numbered) }
{
    let row = normalise(alloc, row.terms, row.constant)?;
    let number = log_division(log, number, row.divisor)?;
    if row.terms.is_empty() {
        return Ok(if row.constant < 0 {
            Some(Event::Refuted)
        } else {
            None
        });
    }
    let held = Held {
        constant: row.constant,
        number,
    };
    kept.put(row.terms, held)?;
    Ok(if limited && kept.len() > ROW_LIMIT {
        Some(Event::Rows(variable))
    } else {
        None
    })
}
