ghost use Rattle.std.specs.Prelude.{◌≡◌, ◌↔◌, ℤ, IsTrue};
ghost use Rattle.lt_value.specs.Num.{Holds, IsExactly};
ghost use Rattle.lt_value.specs.Refine.{IsRelation, Relates};
ghost use Rattle.lt_value.specs.Table.{opposite_of, IsRelated, IsAnswer};

use crate::lattice::meet;
use crate::num::Num;
use crate::progression::{between, single};
use lt_model::{DataModel, Op, Scalar};

/// The relation that holds where another fails.
fn opposite(op: Op) -> Op
    ensures { result ≡ opposite_of op }
{
    match op {
        Op::Lt => Op::Ge,
        Op::Le => Op::Gt,
        Op::Gt => Op::Le,
        Op::Ge => Op::Lt,
        Op::Eq => Op::Ne,
        Op::Ne => Op::Eq,
        other => other,
    }
}

/// Whether two sets have a common member.
fn meets(a: &Num, b: &Num) -> bool
    ensures { IsTrue result ↔ ((z : ℤ) × Holds a.now z × Holds b.now z) }
{
    match meet(a, b) {
        Some(_) => true,
        None => false,
    }
}

/// Whether the two sets are other than one and the same number.
fn differ(a: &Num, b: &Num) -> bool
    ensures { IsTrue result ↔ ((x : ℤ) × (y : ℤ) × Holds a.now x × Holds b.now y × (x ≡ y → ⊥)) }
{
    a.lo != b.hi || a.hi != b.lo
}

/// Whether a relation holds for some pair of members.
fn can_hold(op: Op, a: &Num, b: &Num) -> bool
    requires { IsRelation op }
    ensures { IsTrue result ↔ IsRelated op a.now b.now }
{
    match op {
        Op::Lt => a.lo < b.hi,
        Op::Le => a.lo <= b.hi,
        Op::Gt => b.lo < a.hi,
        Op::Ge => b.lo <= a.hi,
        Op::Eq => meets(a, b),
        Op::Ne => differ(a, b),
        _ => false,
    }
}

/// What a relation gives: 1, 0 or both, by all pairs of members.
pub(crate) fn answers(model: DataModel, op: Op, ty: Scalar, a: &Num, b: &Num) -> Num
    requires { IsRelation op }
    ensures { IsExactly (IsAnswer model op ty a.now b.now) result }
{
    if !can_hold(op, a, b) {
        single(0)
    } else if can_hold(opposite(op), a, b) {
        between(0, 1)
    } else {
        single(1)
    }
}
