// The ends of objects at the exits of what follows their declarations, C11 6.2.4.

ghost use Rattle.std.specs.Prelude.{◌≡◌, ◌*◌, ◌<◌, ℕ, IfOk, length, slice_get};
ghost use Rattle.lt_code.specs.Costs.{alone};
ghost use Rattle.lt_emit.specs.Emission.{Adds, HasPoint};
ghost use Rattle.lt_lower.specs.Stands.{HasExits, GivesExits, declared_by, EndsStand, AllEnd, EndsBehind, GivesAlong};

use crate::flow::Exits;
use lt_emit::Builder;
use lt_tree::typed::{Item, Local};
use std::alloc::AllocError;

/// An object ends at each exit; the exits in front of that.
pub fn ends(b: &mut Builder, object: u32, outer: Exits) -> Result<Exits, AllocError>
    requires { HasExits b.old outer }
    ensures { GivesExits b.old b.new result (alone 5) (λ inner. EndsStand object inner outer) }
{
    let next = b.end(object, outer.next)?;
    let back = b.end(object, outer.back)?;
    let leaves = b.end(object, outer.leaves)?;
    let breaks = b.end(object, outer.breaks)?;
    let continues = b.end(object, outer.continues)?;
    Ok(Exits {
        next,
        back,
        leaves,
        breaks,
        continues,
    })
}

/// Objects end at each exit, the last declared first.
pub fn all_end(b: &mut Builder, its: &[Local], outer: Exits) -> Result<Exits, AllocError>
    requires { HasExits b.old outer }
    ensures { GivesExits b.old b.new result (alone (5 * length its.now)) (λ inner. AllEnd its.now inner outer) }
{
    let mut inner = outer;
    'objects: for it in its {
        inner = ends(b, it.object, inner)?;
    }
    Ok(inner)
}

/// The exits of the items of a block from each on: an object that is declared before ends there.
pub fn ends_along(b: &mut Builder, its: &[Item], x: Exits) -> Result<Vec<Exits>, AllocError>
    requires { HasExits b.old x }
    ensures { GivesAlong b.old b.new result its.now x }
{
    let mut all = Vec::new(b.alloc);
    let mut inner = x;
    all.push(inner)?;
    'items: for it in its {
        inner = ends_behind(b, it, inner)?;
        all.push(inner)?;
    }
    Ok(all)
}

// The exits of the items behind an item.
fn ends_behind(b: &mut Builder, it: &Item, outer: Exits) -> Result<Exits, AllocError>
    requires { HasExits b.old outer }
    ensures exits { GivesExits b.old b.new result (alone (5 * declared_by it.now)) (λ inner. EndsBehind it.now inner outer) }
    ensures unchanged { declared_by it.now ≡ 0 → IfOk result (λ inner. inner ≡ outer) }
{
    match it {
        Item::Local(local) => ends(b, local.object, outer),
        Item::Statement(_) | Item::Label(_) => Ok(outer),
    }
}

/// The exits of the items from one on.
pub fn exits_at(b: &Builder, exits: &[Exits], at: usize) -> Exits
    requires one { at < length exits.now }
    requires each { (k : ℕ) (x : Exits) → slice_get exits.now k ≡ Some x → HasExits b.now x }
    ensures value { slice_get exits.now at ≡ Some result }
    ensures within { HasExits b.now result }
{
    exits[at]
}
