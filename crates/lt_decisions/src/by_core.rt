ghost use Rattle.std.specs.Prelude.{◌≡◌, ◌<◌, [], length, map, slice_get, IfOk, MatchOption};
ghost use Rattle.lt_tree.specs.Tree as c;
ghost use Rattle.lt_tree.specs.Nodes.{Node, nodes};
ghost use Rattle.lt_objectives.specs.Places.{sites as sites_of};
ghost use Rattle.lt_objectives.specs.Decisions.{decisions, clauses, controlling};
ghost use Rattle.lt_objectives.specs.Objectives.{decided_at};
ghost use Rattle.lt_sites.specs.Sites.{AreSitesOf};
ghost use Rattle.lt_decisions.specs.Walk.{IsTest, tests_in};

use crate::turn::{TestPlace, Tests, test_place};
use crate::walk::note_tests;
use lt_sites::Site;
use std::alloc::{AllocError, Global};

/// By number: what a new `pc_decide` stands around, where the core of a decision stands.
pub fn decisions_by_core(
    alloc: Global,
    sites: &[Site<'_>],
) -> Result<Vec<Option<usize>>, AllocError>
    ensures { (unit : c.Unit) → AreSitesOf sites.now unit → IfOk result (λ v. v.items ≡ map (λ site. decided_at (decisions unit) site.number) (sites_of unit)) }
{
    by_core(alloc, sites, Tests::Decisions)
}

/// The same of clauses.
pub fn clauses_by_core(alloc: Global, sites: &[Site<'_>]) -> Result<Vec<Option<usize>>, AllocError>
    ensures { (unit : c.Unit) → AreSitesOf sites.now unit → IfOk result (λ v. v.items ≡ map (λ site. decided_at (clauses unit) site.number) (sites_of unit)) }
{
    by_core(alloc, sites, Tests::Clauses)
}

fn by_core(
    alloc: Global,
    sites: &[Site<'_>],
    tests: Tests,
) -> Result<Vec<Option<usize>>, AllocError>
    ensures { (unit : c.Unit) → AreSitesOf sites.now unit → IfOk result (λ v. v.items ≡ map (λ site. decided_at (tests_in tests unit) site.number) (sites_of unit)) }
{
    let mut found = vec![in alloc; None; sites.len()]?;
    for number in 0..sites.len() {
        if let Some(first) = first_of_test(sites, number) {
            note_tests(sites, tests, first, &mut found);
        }
    }
    Ok(found)
}

/// The number at which the controlling expression of the node at this number begins, if it has one.
fn first_of_test(sites: &[Site<'_>], number: usize) -> Option<usize>
    requires { number < length sites.now }
    ensures { (unit : c.Unit) (node : Node) → AreSitesOf sites.now unit → slice_get (nodes unit) number ≡ Some node
        → MatchOption result (controlling number node ≡ []) (λ first. IsTest sites.now number node first) }
{
    let site = &sites[number];
    let inside = number + 1;
    match test_place(site.node)? {
        TestPlace::First => Some(inside),
        TestPlace::BehindBody => inside.checked_add(sites.get(inside)?.size),
        TestPlace::BehindHead => inside.checked_add(site.head),
    }
}
