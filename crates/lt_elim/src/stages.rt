// The variables are eliminated in turn.
ghost use Rattle.std.specs.Prelude.{◌≡◌, [], length, not, List, IfOk, MatchOption};
ghost use Rattle.lt_elim.specs.Condition.{CanDecide};
ghost use Rattle.lt_elim.specs.Decision.{decided, stops, point, variables, verdict};
ghost use Rattle.lt_elim.specs.Difference.{are_differences};
ghost use Rattle.lt_elim.specs.Progress.{event_of, AllInOrder};
ghost use Rattle.lt_elim.specs.Stages.{CanEliminate, AreStages, AreStagesOf, under};
ghost use Rattle.lt_elim.specs.Tracing.{Traces, Refuting};
ghost use Rattle.lt_lin.specs.declared.row.Row.{Row};

use crate::eliminate::eliminate;
use crate::event::Event;
use crate::kept::Kept;
use crate::log::{Log, log_of};
use crate::stage::Stage;
use crate::system::{keep_rows, variables};
use lt_lin::Row;
use std::alloc::{AllocError, Global};
use std::vec::Vec;

/// The stages of the variables, from the last to the first, the event that ended them, if one came, and the lines.
#[derive(Drop)]
pub(crate) struct Stages {
    pub(crate) stages: Vec<Stage>,
    pub(crate) event: Option<Event>,
    pub(crate) log: Log,
}

/// Keeps a system's own rows and eliminates its variables; there is a limit unless it is a difference system.
pub(crate) fn stages_of(alloc: Global, limited: bool, rows: &[Row]) -> Result<Stages, AllocError>
    requires decide { CanDecide rows.now }
    requires limited { limited ≡ not (are_differences rows.now) }
    ensures verdict { IfOk result (λ s. MatchOption s.event (verdict rows.now ≡ under limited (variables rows.now) s.stages.items (point [])) (λ e. verdict rows.now ≡ stops (event_of e))) }
    ensures stages { IfOk result (λ s. MatchOption s.event (AreStagesOf limited rows.now s.stages.items) (λ e. Unit {0})) }
    ensures refuted { IfOk result (λ s. Refuting rows.now s.event s.log) }
    ensures order { IfOk result (λ s. AllInOrder rows.now) }
{
    let Ok(count) = u32::try_from(variables(rows)) else {
        return Err(AllocError);
    };
    let mut log = log_of(alloc, rows)?;
    let mut kept = Kept::new(alloc);
    let last = count.saturating_sub(1);
    let event = keep_rows(alloc, limited, last, &mut kept, &mut log, rows)?;
    if event.is_some() {
        return Ok(Stages {
            stages: Vec::new(alloc),
            event,
            log,
        });
    }
    eliminate_all(alloc, limited, count, kept, log)
}

/// Eliminates the variables below a number, from the last to the first.
pub(crate) fn eliminate_all(
    alloc: Global,
    limited: bool,
    variables: u32,
    kept: Kept,
    log: Log,
) -> Result<Stages, AllocError>
    requires { CanEliminate limited variables kept.rows }
    ensures verdict { IfOk result (λ s. MatchOption s.event (decided limited variables kept.rows ≡ under limited variables s.stages.items (point [])) (λ e. decided limited variables kept.rows ≡ stops (event_of e))) }
    ensures all { IfOk result (λ s. MatchOption s.event (length s.stages.items ≡ variables) (λ e. Unit {0})) }
    ensures stages { IfOk result (λ s. MatchOption s.event (AreStages limited variables kept.rows s.stages.items) (λ e. Unit {0})) }
    ensures refuted { IfOk result (λ s. (rows known : List Row) → Traces rows known log kept.numbered → Refuting rows s.event s.log) }
{
    let mut kept = kept;
    let mut log = log;
    let mut stages = Vec::new(alloc);
    'variables: for variable in (0..variables).rev() {
        let eliminated = eliminate(alloc, limited, variable, &mut kept, &mut log)?;
        stages.push(eliminated.stage)?;
        if eliminated.event.is_some() {
            return Ok(Stages {
                stages,
                event: eliminated.event,
                log,
            });
        }
    }
    Ok(Stages {
        stages,
        event: None,
        log,
    })
}
