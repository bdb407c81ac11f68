//! The numbers of a unit's nodes in the program's own unit.

ghost use Rattle.std.specs.Prelude.{◌≡◌, IfOk};
ghost use Rattle.lt_tree.specs.Tree as c;
ghost use Rattle.lt_tree.specs.Typing.Programs as s;
ghost use Rattle.lt_sites.specs.Sites.{AreSitesOf};
ghost use Rattle.lt_facts.specs.Numbers.{own_numbers};
ghost use Rattle.lt_facts.specs.Outside.{side_by_side};

use crate::outside::{outside_marks, true_places};
use lt_sites::Site;
use std::alloc::{AllocError, Global};

/// By number: the number of the same node in the program's own unit, if it is there without the marks too.
pub fn own_numbers(
    alloc: Global,
    sites: &[Site<'_>],
    own: &[Site<'_>],
) -> Result<Vec<Option<usize>>, AllocError>
    ensures { (unit : c.Unit) (program : s.Program) → AreSitesOf sites.now unit → AreSitesOf own.now program.unit → IfOk result (λ v. v.items ≡ own_numbers unit program) }
{
    let outside = outside_marks(alloc, sites)?;
    let own_outside = outside_marks(alloc, own)?;
    let numbers = true_places(alloc, &own_outside)?;
    side_by_side(alloc, &outside, &numbers)
}

// For each that is true the next of the numbers.
fn side_by_side(
    alloc: Global,
    flags: &[bool],
    numbers: &[usize],
) -> Result<Vec<Option<usize>>, AllocError>
    ensures { IfOk result (λ v. v.items ≡ side_by_side flags.now numbers.now) }
{
    let mut matched = Vec::new(alloc);
    let mut next = 0;
    for flag in flags {
        if *flag {
            matched.push(numbers.get(next).copied())?;
            next += 1;
        } else {
            matched.push(None)?;
        }
    }
    Ok(matched)
}
