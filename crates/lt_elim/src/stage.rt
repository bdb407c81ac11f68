// The rows that set bounds to a variable.
ghost use Rattle.std.specs.Prelude.{◌≡◌, ◌∷◌, [], ◌++◌, List, IfOk, OnOk};
ghost use Rattle.lt_lin.specs.declared.row.Row.{Row};
ghost use Rattle.lt_lin.specs.Terms.{IsOrdered};
ghost use Rattle.lt_elim.specs.Elimination.{raising, lowering};
ghost use Rattle.lt_elim.specs.Progress.{AllInOrder};
ghost use Rattle.lt_elim.specs.Tracing.{bare, IsKnownAs, AreKnown};

use crate::factor::factor_of;
use crate::kept::{Held, Kept};
use crate::numbered::Numbered;
use lt_lin::{Row, Terms};
use std::alloc::{AllocError, Global};
use std::vec::Vec;

/// The rows with a positive factor of a variable, and those with a negative one.
#[derive(Drop)]
pub(crate) struct Stage {
    pub(crate) raising: Vec<Numbered>,
    pub(crate) lowering: Vec<Numbered>,
}

/// The kept rows in which the variable stands.
pub(crate) fn stage_of(alloc: Global, variable: u32, kept: &Kept) -> Result<Stage, AllocError>
    requires { AllInOrder kept.now.rows }
    ensures raising { IfOk result (λ s. bare s.raising.items ≡ raising variable kept.now.rows) }
    ensures lowering { IfOk result (λ s. bare s.lowering.items ≡ lowering variable kept.now.rows) }
    ensures known { IfOk result (λ s. (known : List Row) → AreKnown known kept.now.numbered → AreKnown known s.raising.items × AreKnown known s.lowering.items) }
{
    let mut stage = Stage {
        raising: Vec::new(alloc),
        lowering: Vec::new(alloc),
    };
    'rows: for place in 0..kept.len() {
        if let Some((terms, held)) = kept.row(place) {
            put_row(alloc, variable, &mut stage, terms, held)?;
        }
    }
    Ok(stage)
}

// Puts a row to those with a factor of its sign, if it has one.
fn put_row(
    alloc: Global,
    variable: u32,
    stage: &mut Stage,
    terms: &[(u32, i128)],
    held: Held,
) -> Result<(), AllocError>
    requires { IsOrdered terms.now }
    ensures raising { OnOk result (bare stage.new.raising.items ≡ bare stage.old.raising.items ++ raising variable (record { terms = terms.now; constant = held.constant } ∷ [])) }
    ensures lowering { OnOk result (bare stage.new.lowering.items ≡ bare stage.old.lowering.items ++ lowering variable (record { terms = terms.now; constant = held.constant } ∷ [])) }
    ensures known { OnOk result ((known : List Row) → IsKnownAs known held.number (record { terms = terms.now; constant = held.constant }) → AreKnown known stage.old.raising.items × AreKnown known stage.old.lowering.items → AreKnown known stage.new.raising.items × AreKnown known stage.new.lowering.items) }
{
    let factor = factor_of(variable, terms);
    if factor == 0 {
        return Ok(());
    }
    let copy = copy_row(alloc, terms, held.constant)?;
    let row = Numbered {
        row: copy,
        number: held.number,
    };
    if factor > 0 {
        stage.raising.push(row)?;
    } else {
        stage.lowering.push(row)?;
    }
    Ok(())
}

fn copy_row(alloc: Global, terms: &[(u32, i128)], constant: i128) -> Result<Row, AllocError>
    requires { IsOrdered terms.now }
    ensures { IfOk result (λ r. r ≡ record { terms = terms.now; constant = constant }) }
{
    let mut copy = Vec::new(alloc);
    copy.extend_from_slice(terms)?;
    Ok(Row {
        terms: Terms::from_ordered(copy),
        constant,
    })
}
