// What operators give that break one rule at most.

ghost use Rattle.std.specs.Prelude.{◌≡◌, ◌∷◌, [], List, IfOk};
ghost use Rattle.lt_table.specs.TableRows.{Stays};
ghost use Rattle.lt_table.specs.TypesValue.{Widens};
ghost use Rattle.lt_tree.specs.Typing.Types.{CType};
ghost use Rattle.lt_tree.specs.Typing.EntityView.{rule_of};
ghost use Rattle.lt_tree.specs.Typing.Rules.{unless};
ghost use Rattle.lt_tree.specs.Typing.Expressions as typing;
ghost use Rattle.lt_env.specs.Views.{typed_in, judged_in};

use crate::shared::judgement;
use lt_env::values::nothing;
use lt_env::{Faults, Judged, Typed};
use lt_table::Types;
use lt_tree::typed::Rule;
use std::alloc::{AllocError, Global};

/// An expression with one rule, which is broken unless this holds.
pub fn judgement_unless(
    alloc: Global,
    condition: bool,
    rule: Rule,
    typed: Box<Typed>,
) -> Result<Box<Judged>, AllocError>
    ensures { IfOk result (λ j. (types : List CType) → judged_in types j ≡ typing.judgement (unless condition (rule_of rule)) (typed_in types typed)) }
{
    let mut faults = Faults::new(alloc);
    faults.unless(condition, rule)?;
    judgement(alloc, faults, typed)
}

/// What an operator gives that breaks this rule and makes nothing.
pub fn broken(types: &mut Types, rule: Rule) -> Result<Box<Judged>, AllocError>
    ensures widens { Widens types.old types.new }
    ensures made { IfOk result (λ j. Stays types.new.rows (λ longer. judged_in longer j ≡ typing.judgement (rule_of rule ∷ []) typing.nothing)) }
{
    let typed = nothing(types)?;
    judgement_unless(types.alloc(), false, rule, typed)
}
