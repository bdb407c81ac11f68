ghost use Rattle.std.specs.Prelude.{◌≡◌, IfOk, length, map};
ghost use Rattle.lt_tree.specs.UnitView.{unit_of};
ghost use Rattle.lt_objectives.specs.Places.{sites as sites_of};
ghost use Rattle.lt_sites.specs.Sites.{AreSitesOf, entry_of};
ghost use Rattle.lt_copies.specs.Fitting.{fits_at};
ghost use Rattle.lt_copies.specs.Judged.{whole_parts, run_from};

use crate::walk::fitting_nodes;
use lt_sites::Site;
use lt_tree::Unit;
use std::alloc::{AllocError, Global};

/// Whether predicates may copy the part that begins with the node of each number: no type name in it declares a tag.
pub fn copied_parts(alloc: Global, unit: &Unit, sites: &[Site<'_>]) -> Result<Vec<bool>, AllocError>
    requires { AreSitesOf sites.now (unit_of unit.now) }
    ensures { IfOk result (λ it. it.items ≡ map (fits_at (unit_of unit.now)) (sites_of (unit_of unit.now))) }
{
    let fitting = fitting_nodes(alloc, sites)?;
    whole_parts(alloc, &fitting, sites)
}

// Whether each node of the part that begins with each of these may be copied, where that is known of each node.
fn whole_parts(alloc: Global, fitting: &[bool], sites: &[Site<'_>]) -> Result<Vec<bool>, AllocError>
    requires { length fitting.now ≡ length sites.now }
    ensures { IfOk result (λ it. it.items ≡ whole_parts fitting.now (map entry_of sites.now)) }
{
    let mut whole = Vec::new(alloc);
    // how many nodes from here on fit, before one that doesn't
    let mut run = usize::MAX;
    'sites: for number in (0..sites.len()).rev() {
        run = run_from(fitting[number], run);
        whole.push(sites[number].size <= run)?;
    }
    whole.reverse();
    Ok(whole)
}

// How many nodes fit from one on, before one that doesn't, where so many do behind it.
fn run_from(fits: bool, behind: usize) -> usize
    ensures { result ≡ run_from fits behind }
{
    if fits { behind.saturating_add(1) } else { 0 }
}
