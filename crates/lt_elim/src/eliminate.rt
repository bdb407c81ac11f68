// A variable is eliminated.
ghost use Rattle.std.specs.Prelude.{◌≡◌, ◌∷◌, ◌++◌, [], IfOk};
ghost use Rattle.lt_elim.specs.Elimination.{keep_combination, combine_with, combine_all, eliminated, raising, lowering, without};
ghost use Rattle.lt_elim.specs.Progress.{outcome, AllInOrder};
ghost use Rattle.lt_elim.specs.Summing.{CanCombine, CombineWith, CombineAll};
ghost use Rattle.lt_elim.specs.Tracing.{bare, TracedOn};

use crate::combination::combine;
use crate::event::Event;
use crate::keep::keep;
use crate::kept::Kept;
use crate::log::{Log, log_sum};
use crate::numbered::Numbered;
use crate::pair::pair_of;
use crate::stage::{Stage, stage_of};
use std::alloc::{AllocError, Global};

/// The variable's stage of the elimination, and the event that ended it, if one came.
#[derive(Drop)]
pub(crate) struct Eliminated {
    pub(crate) stage: Stage,
    pub(crate) event: Option<Event>,
}

/// Leaves the rows without the variable and the combinations without it.
pub(crate) fn eliminate(
    alloc: Global,
    limited: bool,
    variable: u32,
    kept: &mut Kept,
    log: &mut Log,
) -> Result<Eliminated, AllocError>
    requires order { AllInOrder kept.old.rows }
    requires combine { CombineAll limited variable (raising variable kept.old.rows) (lowering variable kept.old.rows) }
    ensures kept { IfOk result (λ e. eliminated limited variable kept.old.rows ≡ outcome e.event kept.new.rows) }
    ensures raising { IfOk result (λ e. bare e.stage.raising.items ≡ raising variable kept.old.rows) }
    ensures lowering { IfOk result (λ e. bare e.stage.lowering.items ≡ lowering variable kept.old.rows) }
    ensures traced { IfOk result (λ e. TracedOn log.old kept.old.numbered [] e.event log.new kept.new.numbered) }
{
    let stage = stage_of(alloc, variable, kept)?;
    kept.drop_variable(variable);
    let raising = stage.raising.as_slice();
    let lowering = stage.lowering.as_slice();
    let event = combine_all(alloc, limited, variable, kept, log, raising, lowering)?;
    Ok(Eliminated { stage, event })
}

// Keeps each combination of a row that raises the variable and one that lowers it.
fn combine_all(
    alloc: Global,
    limited: bool,
    variable: u32,
    kept: &mut Kept,
    log: &mut Log,
    raising: &[Numbered],
    lowering: &[Numbered],
) -> Result<Option<Event>, AllocError>
    requires { CombineAll limited variable (bare raising.now) (bare lowering.now) }
    ensures kept { IfOk result (λ e. combine_all limited variable kept.old.rows (bare raising.now) (bare lowering.now) ≡ outcome e kept.new.rows) }
    ensures traced { IfOk result (λ e. TracedOn log.old kept.old.numbered (raising.now ++ lowering.now) e log.new kept.new.numbered) }
{
    'raising: for row in raising {
        let event = combine_with(alloc, limited, variable, kept, log, row, lowering)?;
        if event.is_some() {
            return Ok(event);
        }
    }
    Ok(None)
}

// Keeps the combinations of a row with each that lowers the variable.
fn combine_with(
    alloc: Global,
    limited: bool,
    variable: u32,
    kept: &mut Kept,
    log: &mut Log,
    raising: &Numbered,
    lowering: &[Numbered],
) -> Result<Option<Event>, AllocError>
    requires { CombineWith limited variable raising.now.row (bare lowering.now) }
    ensures kept { IfOk result (λ e. combine_with limited variable raising.now.row kept.old.rows (bare lowering.now) ≡ outcome e kept.new.rows) }
    ensures traced { IfOk result (λ e. TracedOn log.old kept.old.numbered (raising.now ∷ lowering.now) e log.new kept.new.numbered) }
{
    'lowering: for row in lowering {
        let event = keep_combination(alloc, limited, variable, kept, log, raising, row)?;
        if event.is_some() {
            return Ok(event);
        }
    }
    Ok(None)
}

fn keep_combination(
    alloc: Global,
    limited: bool,
    variable: u32,
    kept: &mut Kept,
    log: &mut Log,
    raising: &Numbered,
    lowering: &Numbered,
) -> Result<Option<Event>, AllocError>
    requires { CanCombine limited variable raising.now.row lowering.now.row }
    ensures kept { IfOk result (λ e. keep_combination limited variable raising.now.row kept.old.rows lowering.now.row ≡ outcome e kept.new.rows) }
    ensures traced { IfOk result (λ e. TracedOn log.old kept.old.numbered (raising.now ∷ lowering.now ∷ []) e log.new kept.new.numbered) }
{
    let combined = combine(alloc, limited, variable, &raising.row, &lowering.row)?;
    let Some(sum) = combined else {
        return Ok(Some(Event::Coeff(variable)));
    };
    let number = log_sum(alloc, log, pair_of(limited, variable, raising, lowering))?;
    keep(alloc, limited, variable, kept, log, sum, number)
}
