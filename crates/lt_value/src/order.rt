ghost use Rattle.std.specs.Prelude.{◌↔◌, IsTrue};
ghost use Rattle.lt_value.specs.Num.{Holds, IsBelow};

use crate::modular::divides;
use crate::num::Num;
use crate::progression::rest_by;

/// Whether a number is a member.
pub fn is_member(n: &Num, z: i128) -> bool
    ensures { IsTrue result ↔ Holds n.now z }
{
    n.lo <= z && z <= n.hi && (n.step == 0 || rest_by(n.step, z) == n.rest)
}

/// Whether each member of a is one of b.
pub fn is_below(a: &Num, b: &Num) -> bool
    ensures { IsTrue result ↔ IsBelow a.now b.now }
{
    is_member(b, a.lo) && a.hi <= b.hi && divides(b.step, a.step)
}
