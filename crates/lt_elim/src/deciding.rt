// What a system is decided to be.
ghost use Rattle.std.specs.Prelude.{◌≡◌, map, pos, not, [], IfOk, length, Some, MatchOption, false, List};
ghost use Rattle.lt_elim.specs.Condition.{CanDecide};
ghost use Rattle.lt_elim.specs.Decision.{stops, point};
ghost use Rattle.lt_elim.specs.Deciding.{IsDecision, IsSound, HasComeOf, HasLines};
ghost use Rattle.lt_elim.specs.Progress.{event_of};
ghost use Rattle.lt_elim.specs.Tracing.{Refuting};
ghost use Rattle.lt_lin.specs.declared.row.Row.{Row};
ghost use Rattle.lt_elim.specs.Reckoning.{fractions_of};
ghost use Rattle.lt_elim.specs.Stages.{under};
ghost use Rattle.lt_elim.specs.Values.{HaveBounds, CanReckon};

use crate::arithmetic::signed;
use crate::decision::Decision;
use crate::event::Event;
use crate::fraction::Fraction;
use crate::log::Log;
use crate::point::{Reckoned, values_of};
use crate::stage::Stage;
use crate::stages::stages_of;
use crate::system::are_differences;
use lt_lin::System;
use std::alloc::{AllocError, Global};
use std::vec::Vec;

/// Decides a system: lines that refute its rows, a point that makes them true, or the limit that was passed first. On a
/// difference system no limit is passed, and the point is whole.
pub fn decide(alloc: Global, system: &System) -> Result<Decision, AllocError>
    requires { CanDecide system.now.rows.items }
    ensures verdict { IfOk result (λ d. IsDecision system.now.rows.items d) }
    ensures sound { IfOk result (λ d. IsSound system.now.rows.items d) }
{
    let rows = system.rows.as_slice();
    let limited = !are_differences(rows);
    let stages = stages_of(alloc, limited, rows)?;
    match stages.event {
        Some(event) => Ok(decision_of(event, stages.log)),
        None => point_of(alloc, limited, stages.stages.as_slice()),
    }
}

fn decision_of(event: Event, log: Log) -> Decision
    ensures decision { HasComeOf (stops (event_of event)) result }
    ensures lines { (rows : List Row) → Refuting rows (Some event) log → HasLines rows result }
{
    match event {
        Event::Refuted => Decision::Refuted(log.lines),
        Event::Rows(variable) => Decision::Rows(variable),
        Event::Coeff(variable) => Decision::Coeff(variable),
    }
}

// The point, or the variable whose value passes the limit.
fn point_of(alloc: Global, limited: bool, stages: &[Stage]) -> Result<Decision, AllocError>
    requires bounding { HaveBounds (length stages.now) stages.now }
    requires can { limited ≡ false → CanReckon (length stages.now) stages.now }
    ensures { IfOk result (λ d. HasComeOf (under limited (length stages.now) stages.now (point [])) d) }
{
    let Ok(variables) = u32::try_from(stages.len()) else {
        return Err(AllocError);
    };
    match values_of(alloc, limited, variables, stages)? {
        Reckoned::Passes(variable) => Ok(Decision::Coeff(variable)),
        Reckoned::Values(values) => {
            let numerators = numerators_of(alloc, values.as_slice())?;
            let denominators = denominators_of(alloc, values.as_slice())?;
            Ok(Decision::Point(numerators, denominators))
        }
    }
}

fn numerators_of(alloc: Global, values: &[Fraction]) -> Result<Vec<i128>, AllocError>
    ensures { IfOk result (λ v. v.items ≡ map (λ f. f.over) (fractions_of values.now)) }
{
    let mut numerators = Vec::new(alloc);
    'values: for value in values {
        numerators.push(value.over)?;
    }
    Ok(numerators)
}

fn denominators_of(alloc: Global, values: &[Fraction]) -> Result<Vec<i128>, AllocError>
    ensures { IfOk result (λ v. v.items ≡ map (λ f. pos f.under) (fractions_of values.now)) }
{
    let mut denominators = Vec::new(alloc);
    'values: for value in values {
        denominators.push(signed(value.under))?;
    }
    Ok(denominators)
}
