ghost use Rattle.std.specs.Prelude.{IfSome, IfNone};
ghost use Rattle.lt_value.specs.Num.{IsExactly, IsEmpty};
ghost use Rattle.lt_value.specs.Table.{IsResult};
ghost use Rattle.lt_value.specs.Forward.{AreTaken, IsForward};

mod arithmetic;
mod bits;
mod division;
pub(crate) mod operand;
pub(crate) mod settle;
mod shift;
mod span;
mod truth;

use crate::num::Num;
use crate::operators::arithmetic::{differences, products, sums};
use crate::operators::bits::{common_bits, differing_bits, joined_bits};
use crate::operators::division::{quotients, remainders};
use crate::operators::operand::{left_operand, right_operand};
use crate::operators::shift::{left_shifts, right_shifts};
use crate::operators::truth::answers;
use lt_model::{DataModel, Op, Scalar};

/// What the table has for two sets as an operator takes them.
fn operate(model: DataModel, op: Op, ty: Scalar, a: &Num, b: &Num) -> Option<Num>
    requires { AreTaken model op ty a.now b.now }
    ensures some { IfSome result (IsExactly (IsResult model op ty a.now b.now)) }
    ensures none { IfNone result (IsEmpty (IsResult model op ty a.now b.now)) }
{
    match op {
        Op::Add => sums(model, ty, a, b),
        Op::Sub => differences(model, ty, a, b),
        Op::Mul => products(model, ty, a, b),
        Op::Div => quotients(model, ty, a, b),
        Op::Rem => remainders(model, ty, a, b),
        Op::Shl => left_shifts(model, ty, a, b),
        Op::Shr => right_shifts(model, ty, a, b),
        Op::And => common_bits(model, ty, a, b),
        Op::Or => joined_bits(model, ty, a, b),
        Op::Xor => differing_bits(model, ty, a, b),
        Op::Lt | Op::Le | Op::Gt | Op::Ge | Op::Eq | Op::Ne => Some(answers(model, op, ty, a, b)),
    }
}

/// What an operator of a type gives on two sets of numbers, by the table of `specs/Table.antt`: of the members only those
/// that the operator takes count, and `None` is the answer exactly where the table's result is empty. Each defined result
/// of members is among the numbers, and greater sets give greater ones (`forward_sound_law`, `forward_monotone_law`).
pub fn forward(model: DataModel, op: Op, ty: Scalar, a: &Num, b: &Num) -> Option<Num>
    ensures some { IfSome result (IsExactly (IsForward model op ty a.now b.now)) }
    ensures none { IfNone result (IsEmpty (IsForward model op ty a.now b.now)) }
{
    let left = left_operand(model, op, ty, a)?;
    let right = right_operand(model, op, ty, b)?;
    operate(model, op, ty, &left, &right)
}
