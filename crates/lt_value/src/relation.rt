ghost use Rattle.std.specs.Prelude.{ℤ, pos, ◌≤ℤ◌, IfSome, IfNone};
ghost use Rattle.lt_value.specs.Num.{IsEmpty, IsLeast};
ghost use Rattle.lt_value.specs.Refine.{IsRelation, Relates, IsRefined, IsUnrelated, IsLessBy, IsMoreBy, IsSame, IsOther, IsLeft};

use crate::cut::{from_on, up_to, without};
use crate::lattice::meet;
use crate::num::Num;
use lt_model::Op;

/// Of each side the members in the pairs whose left number is less by the gap at least.
fn less(a: &Num, b: &Num, gap: i128) -> Option<(Num, Num)>
    requires above { pos 0 ≤ℤ gap }
    requires below { gap ≤ℤ pos 1 }
    ensures some { IfSome result (λ p. IsRefined (IsLessBy gap) a.now b.now p.0 p.1) }
    ensures none { IfNone result (IsUnrelated (IsLessBy gap) a.now b.now) }
{
    let left = up_to(a, b.hi - gap)?;
    let right = from_on(b, a.lo + gap)?;
    Some((left, right))
}

/// Of each side the members in the pairs whose left number is greater by the gap at least.
fn more(a: &Num, b: &Num, gap: i128) -> Option<(Num, Num)>
    requires above { pos 0 ≤ℤ gap }
    requires below { gap ≤ℤ pos 1 }
    ensures some { IfSome result (λ p. IsRefined (IsMoreBy gap) a.now b.now p.0 p.1) }
    ensures none { IfNone result (IsUnrelated (IsMoreBy gap) a.now b.now) }
{
    let (right, left) = less(b, a, gap)?;
    Some((left, right))
}

fn same(a: &Num, b: &Num) -> Option<(Num, Num)>
    ensures some { IfSome result (λ p. IsRefined IsSame a.now b.now p.0 p.1) }
    ensures none { IfNone result (IsUnrelated IsSame a.now b.now) }
{
    let common = meet(a, b)?;
    Some((common, common))
}

/// The least `Num` of a's members that differ from some member of b: two members of b leave nothing out.
fn other(a: &Num, b: &Num) -> Option<Num>
    ensures some { IfSome result (IsLeast (IsLeft IsOther a.now b.now)) }
    ensures none { IfNone result (IsEmpty (IsLeft IsOther a.now b.now)) }
{
    if b.step == 0 {
        without(a, b.lo)
    } else {
        Some(*a)
    }
}

fn different(a: &Num, b: &Num) -> Option<(Num, Num)>
    ensures some { IfSome result (λ p. IsRefined IsOther a.now b.now p.0 p.1) }
    ensures none { IfNone result (IsUnrelated IsOther a.now b.now) }
{
    let left = other(a, b)?;
    let right = other(b, a)?;
    Some((left, right))
}

/// What a relation leaves of its two sides: for each the least `Num` that holds its members in the pairs for which the
/// relation holds, and `None` exactly where it holds for no pair.
pub fn refine(op: Op, a: &Num, b: &Num) -> Option<(Num, Num)>
    requires { IsRelation op }
    ensures some { IfSome result (λ p. IsRefined (Relates op) a.now b.now p.0 p.1) }
    ensures none { IfNone result (IsUnrelated (Relates op) a.now b.now) }
{
    match op {
        Op::Lt => less(a, b, 1),
        Op::Le => less(a, b, 0),
        Op::Gt => more(a, b, 1),
        Op::Ge => more(a, b, 0),
        Op::Eq => same(a, b),
        Op::Ne => different(a, b),
        _ => None,
    }
}
