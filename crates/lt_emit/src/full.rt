//! Code of full expressions, C11 6.8.

ghost use Rattle.std.specs.Prelude.{◌≡◌, false};
ghost use Rattle.lt_tree.specs.Typing.ValueView.{value_of};
ghost use Rattle.lt_emit.specs.Emission.{GivesWithin, HasPoint};
ghost use Rattle.lt_emit.specs.Stands.{value_cost, test_cost, FullValueStands, FullTestStands};

use crate::builder::Builder;
use crate::calm::{Grade, is_of};
use crate::expression::{test, value};
use crate::fate::Fate;
use lt_tree::typed::Value;
use std::alloc::AllocError;

/// The code of a full expression, whose value goes to a register. Where nothing can clash it tracks no footprints.
pub fn full_value(
    b: &mut Builder,
    fate: Fate,
    v: &Value,
    register: u32,
    to: u32,
) -> Result<u32, AllocError>
    requires { HasPoint b.old to }
    ensures { GivesWithin b.old b.new result (value_cost (λ types. value_of types v.now) register) (FullValueStands fate v.now register to) }
{
    let outside = b.tracks;
    b.tracks = !is_of(Grade::CannotClash, v);
    let code = value(b, fate, v, register, to);
    b.tracks = outside;
    code
}

/// The code of a full expression as a test, which leads to one node or to the other.
pub fn full_test(
    b: &mut Builder,
    v: &Value,
    register: u32,
    on: u32,
    off: u32,
) -> Result<u32, AllocError>
    requires on { HasPoint b.old on }
    requires off { HasPoint b.old off }
    ensures { GivesWithin b.old b.new result (test_cost (λ types. value_of types v.now) register) (FullTestStands v.now register on off) }
{
    let outside = b.tracks;
    b.tracks = !is_of(Grade::CannotClash, v);
    let code = test(b, v, register, on, off);
    b.tracks = outside;
    code
}
