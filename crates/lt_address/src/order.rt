ghost use Rattle.std.specs.Prelude.{◌↔◌, ℕ, ℤ, IsTrue};
ghost use Rattle.lt_address.specs.Targets.{IsAscending, PointsTo};
ghost use Rattle.lt_address.specs.Seeking.{IsWithin, AreMarksBelow};
ghost use Rattle.lt_address.specs.Value.{Held, StandsFor, IsBelowValue};

use crate::numbers::numbers_below;
use crate::seek::seek;
use crate::target::Target;
use crate::value::Value;

/// Whether the second list points to all that the first does.
fn targets_below(a: &[Target], b: &[Target]) -> bool
    requires left { IsAscending a.now }
    requires right { IsAscending b.now }
    ensures { IsTrue result ↔ IsWithin a.now b.now }
{
    let mut left = a;
    let mut right = b;
    'targets: while let Some((target, more)) = left.split_first() {
        let (offsets, rest) = seek(right, target.block);
        if !numbers_below(Some(target.at), offsets) {
            return false;
        }
        left = more;
        right = rest;
    }
    true
}

/// Whether each mark of a is one of b.
fn marks_below(a: &Value, b: &Value) -> bool
    ensures { IsTrue result ↔ AreMarksBelow a.now b.now }
{
    (b.null || !a.null) && (b.ended || !a.ended) && (b.unset || !a.unset)
}

/// Whether b stands for all that a does.
pub fn is_value_below(a: &Value, b: &Value) -> bool
    ensures { IsTrue result ↔ IsBelowValue a.now b.now }
{
    if !marks_below(a, b) {
        return false;
    }
    if !numbers_below(a.num, b.num) {
        return false;
    }
    targets_below(a.targets.list.as_slice(), b.targets.list.as_slice())
}

pub(crate) fn no_targets(targets: &[Target]) -> bool
    ensures { IsTrue result ↔ ((block : ℕ) (z : ℤ) → PointsTo targets.now block z → ⊥) }
{
    targets.is_empty()
}

/// Whether a value stands for nothing.
pub fn is_nothing(value: &Value) -> bool
    ensures { IsTrue result ↔ ((h : Held) → StandsFor value.now h → ⊥) }
{
    if value.null || value.ended || value.unset {
        return false;
    }
    match value.num {
        Some(_) => false,
        None => no_targets(value.targets.list.as_slice()),
    }
}
