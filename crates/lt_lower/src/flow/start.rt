// What stands before the first `;` of a `for`, C11 6.8.5.3.

ghost use Rattle.std.specs.Prelude.{◌*◌, List};
ghost use Rattle.lt_tree.specs.Typing.StatementView.{for_start_of};
ghost use Rattle.lt_code.specs.Costs.{alone};
ghost use Rattle.lt_emit.specs.Emission.{GivesWithin, HasPoint};
ghost use Rattle.lt_lower.specs.Stands.{HasExits, GivesExits, start_cost, openings_cost, declared_in, StartOpens, StartEnds, OpeningsStand};

use crate::flow::Exits;
use crate::flow::ends::all_end;
use crate::object::opening;
use lt_emit::{Builder, Fate, full_value};
use lt_tree::typed::{ForStart, Local};
use std::alloc::AllocError;

/// The exits of the turns: the objects that are declared end there.
pub fn start_ends(b: &mut Builder, start: &ForStart, x: Exits) -> Result<Exits, AllocError>
    requires { HasExits b.old x }
    ensures { GivesExits b.old b.new result (alone (5 * declared_in start.now)) (λ inner. StartEnds (λ types. for_start_of types start.now) inner x) }
{
    match start {
        ForStart::Nothing | ForStart::First(_) => Ok(x),
        ForStart::Locals(its) => all_end(b, its.as_slice(), x),
    }
}

/// What is done before the turns.
pub fn start_opens(b: &mut Builder, start: &ForStart, to: u32) -> Result<u32, AllocError>
    requires { HasPoint b.old to }
    ensures { GivesWithin b.old b.new result (start_cost (λ types. for_start_of types start.now)) (StartOpens (λ types. for_start_of types start.now) to) }
{
    match start {
        ForStart::Nothing => Ok(to),
        ForStart::First(v) => full_value(b, Fate::Dropped, v, 0, to),
        ForStart::Locals(its) => openings(b, its.as_slice(), to),
    }
}

// Objects begin, one behind the other.
fn openings(b: &mut Builder, its: &[Local], to: u32) -> Result<u32, AllocError>
    requires { HasPoint b.old to }
    ensures { GivesWithin b.old b.new result (openings_cost its.now) (OpeningsStand its.now to) }
{
    let mut from = to;
    'objects: for at in (0..its.len()).rev() {
        from = opening(b, &its[at], from)?;
    }
    Ok(from)
}
