// What the operand of a `switch` gives: the type of the cases, the rules that are broken, and the value.

ghost use Rattle.std.specs.Prelude.{◌≡◌, IfOk, option_map};
ghost use Rattle.lt_model.specs.Conversions.{promoted};
ghost use Rattle.lt_table.specs.TableRows.{Stays};
ghost use Rattle.lt_table.specs.TypesValue.{Widens};
ghost use Rattle.lt_env.specs.Going.{Gives, answering};
ghost use Rattle.lt_env.specs.Views.{typed_in};
ghost use Rattle.lt_unit.specs.SwitchHeads.{head_of, switch_head};

use crate::statement::faults::{scalar_of, switch_faults};
use crate::statement::made::switch_value;
use lt_model::{DataModel, Scalar, promote};
use lt_table::Types;
use lt_tree::typed::Value;
use lt_type::{Faults, TypeStop, Typed, Walker};
use std::alloc::AllocError;

/// What the operand of a `switch` gives.
#[derive(Drop)]
pub struct SwitchHead {
    /// Its promoted type, if it is an integer.
    pub ty: Option<Scalar>,
    pub faults: Faults,
    pub value: Box<Value>,
}

// A type, promoted.
fn promote_any(model: DataModel, s: Option<Scalar>) -> Option<Scalar>
    ensures { result ≡ option_map (promoted model) s }
{
    match s {
        None => None,
        Some(s) => Some(promote(model, s)),
    }
}

fn made(types: &mut Types, x: Box<Typed>) -> Result<SwitchHead, AllocError>
    ensures widens { Widens types.old types.new }
    ensures made { IfOk result (λ head. Stays types.new.rows (λ longer. head_of longer head ≡ switch_head types.old.model (typed_in longer x))) }
{
    let scalar = scalar_of(types, &x)?;
    let faults = switch_faults(types, &x)?;
    let ty = promote_any(types.model(), scalar);
    let value = switch_value(types, x)?;
    Ok(SwitchHead { ty, faults, value })
}

/// Of this operand. It counts where the cases begin.
pub fn switch_head(walker: &mut Walker, x: Box<Typed>) -> Result<SwitchHead, TypeStop>
    ensures { Gives head_of walker.old walker.new result (λ types. answering (λ known. switch_head known.model (typed_in types x))) }
{
    let head = made(&mut walker.types, x)?;
    Ok(head)
}
