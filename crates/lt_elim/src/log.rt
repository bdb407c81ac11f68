// Lines that give rows.
ghost use Rattle.std.specs.Prelude.{◌≡◌, ◌+◌, List, [], ◌∷◌, ◌++◌, IfOk, slice_get, Some, ◌≢◌, pos};
ghost use Rattle.lt_lin.specs.declared.row.Row.{Row};
ghost use Rattle.lt_lin.specs.Refutation.{IsCombination, IsQuotient};
ghost use Rattle.lt_elim.specs.Tracing.{Derives, IsKnownAs, IsPushed, Gained};

use lt_lin::{Line, Row};
use std::alloc::{AllocError, Global};
use std::vec::Vec;

/// Lines in their order, and how many rows are known with those that they give.
#[derive(Drop)]
pub(crate) struct Log {
    pub(crate) lines: Vec<Line>,
    pub(crate) count: u32,
}

/// No lines; the rows of the system are known.
pub(crate) fn log_of(alloc: Global, rows: &[Row]) -> Result<Log, AllocError>
    ensures { IfOk result (λ l. Derives rows.now l rows.now) }
{
    let Ok(count) = u32::try_from(rows.len()) else {
        return Err(AllocError);
    };
    Ok(Log {
        lines: Vec::new(alloc),
        count,
    })
}

/// Two factors by which rows of two numbers are multiplied before they are added.
#[derive(Clone, Copy)]
pub(crate) struct Pair {
    pub(crate) raising: u32,
    pub(crate) of_raising: i128,
    pub(crate) lowering: u32,
    pub(crate) of_lowering: i128,
}

/// One more line gives the sum of two rows; the number of the new row.
pub(crate) fn log_sum(alloc: Global, log: &mut Log, pair: Pair) -> Result<u32, AllocError>
    ensures { IfOk result (λ n. (rows known : List Row) (r : Row) → Derives rows log.old known → IsCombination known ((pair.raising, pair.of_raising) ∷ (pair.lowering, pair.of_lowering) ∷ []) r → Gained rows known r log.new n) }
{
    let mut pairs = Vec::new(alloc);
    pairs.push((pair.raising, pair.of_raising))?;
    pairs.push((pair.lowering, pair.of_lowering))?;
    push(log, Line::Combine(pairs))
}

/// The number of the row divided, which one more line gives unless the divisor is 1.
pub(crate) fn log_division(log: &mut Log, number: u32, divisor: i128) -> Result<u32, AllocError>
    ensures { IfOk result (λ n. (rows known : List Row) (q r : Row) → Derives rows log.old known → IsKnownAs known number q → IsQuotient q divisor r → Gained rows known r log.new n) }
{
    if divisor == 1 {
        return Ok(number);
    }
    push(log, Line::Divide(number, divisor))
}

// One more line; the number of the row that it gives.
fn push(log: &mut Log, line: Line) -> Result<u32, AllocError>
    ensures { IfOk result (λ n. IsPushed log.old line log.new n) }
{
    let number = log.count;
    let Some(count) = number.checked_add(1) else {
        return Err(AllocError);
    };
    log.lines.push(line)?;
    log.count = count;
    Ok(number)
}
