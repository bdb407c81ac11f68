ghost use Rattle.std.specs.Prelude.{◌≡◌, ◌↔◌, ℤ, pos, Ok};
ghost use Rattle.std.specs.Int.{IsGcd};
ghost use Rattle.lt_model.specs.Scalar.{IsValue};
ghost use Rattle.lt_model.specs.Operators.{value_of, IsRightOperand};
ghost use Rattle.lt_value.specs.Num.{Holds, IsBelow};
ghost use Rattle.lt_value.specs.Refine.{IsRelation, Relates};
ghost use Rattle.lt_value.specs.Entry.{gcd_of};
ghost use Rattle.lt_value.specs.Forward.{IsForward};

use crate::num::Num;
use crate::operators::operand::{left_operand, right_operand};
use lt_model::{DataModel, Op, Scalar};

/// A law: no set of numbers has two forms. It does nothing.
pub fn one_form_law(a: &Num, b: &Num)
    requires forth { IsBelow a.now b.now }
    requires back { IsBelow b.now a.now }
    ensures lo { a.now.lo ≡ b.now.lo }
    ensures hi { a.now.hi ≡ b.now.hi }
    ensures step { a.now.step ≡ b.now.step }
    ensures rest { a.now.rest ≡ b.now.rest }
{}

/// A law: two values stand in a relation exactly where its operator gives 1. It does nothing.
pub fn relation_law(model: DataModel, op: Op, ty: Scalar, x: i128, y: i128)
    requires { IsRelation op }
    ensures { Relates op x y ↔ (value_of model op ty x y ≡ Ok (pos 1)) }
{}

/// A law: the table's common divisor is the greatest one. It does nothing.
pub fn common_divisor_law(a: u128, b: u128)
    ensures { IsGcd a b (gcd_of a b) }
{}

/// A law: each defined result of members is among what `forward` gives. It has no effect: that there are operands is shown
/// by computing them.
pub fn forward_sound_law(model: DataModel, op: Op, ty: Scalar, a: &Num, b: &Num)
    ensures { (x y z : ℤ) → Holds a.now x → Holds b.now y → IsValue model ty x → IsRightOperand model op ty y → value_of model op ty x y ≡ Ok z → IsForward model op ty a.now b.now z }
{
    let _left = left_operand(model, op, ty, a);
    let _right = right_operand(model, op, ty, b);
}

/// A law: greater sets give greater ones. It has no effect, as the one before.
pub fn forward_monotone_law(
    model: DataModel,
    op: Op,
    ty: Scalar,
    a: &Num,
    b: &Num,
    c: &Num,
    d: &Num,
)
    requires left { IsBelow a.now c.now }
    requires right { IsBelow b.now d.now }
    ensures { (z : ℤ) → IsForward model op ty a.now b.now z → IsForward model op ty c.now d.now z }
{
    let _left = left_operand(model, op, ty, c);
    let _right = right_operand(model, op, ty, d);
}
