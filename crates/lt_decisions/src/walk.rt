// Walks from the first node of a controlling expression to its last.
ghost use Rattle.std.specs.Prelude.{◌≡◌, ℕ, ◌+◌, ◌<◌, ◌≤◌, min, max, List, Option, length, unwrap_or};
ghost use Rattle.lt_tree.specs.Tree as c;
ghost use Rattle.lt_tree.specs.Nodes.{in_expression};
ghost use Rattle.lt_decisions.specs.Walk.{Stand, Leads, tests_of, noted, noted_all};

use crate::turn::{Tests, Turn, turn_at};
use lt_sites::Site;

/// A place on a walk.
#[derive(Clone, Copy)]
pub struct Cursor {
    pub number: usize,
    /// The outermost `pc_after` directly around what stands here.
    pub after: Option<usize>,
}

/// Notes the tests of the controlling expression that begins at this number.
pub fn note_tests(sites: &[Site<'_>], tests: Tests, first: usize, found: &mut [Option<usize>])
    requires { length found.old ≡ length sites.now }
    ensures { (e : c.Expression) → Stand sites.now first (in_expression e) → found.new ≡ noted_all found.old (tests_of tests None first e) }
{
    let Some(site) = sites.get(first) else {
        return;
    };
    let last = behind(first, site.size, sites.len());
    let mut at = Cursor {
        number: first,
        after: None,
    };
    'walk: while at.number < last {
        at = step(sites, tests, at, found);
    }
}

/// Goes on to a node inside, or notes a test and goes behind it.
fn step(sites: &[Site<'_>], tests: Tests, at: Cursor, found: &mut [Option<usize>]) -> Cursor
    requires within { at.number < length sites.now }
    requires for_all { length found.old ≡ length sites.now }
    ensures onward { at.number < result.number }
    ensures leads { (last : ℕ) (whole : List (Option ℕ)) → at.number < last → Leads sites.now tests at last found.old whole → Leads sites.now tests result last found.new whole }
{
    let number = at.number;
    let site = &sites[number];
    let behind = behind(number, site.size, sites.len());
    let (number, after) = match turn_at(tests, site.node) {
        Turn::Skip => (behind, at.after),
        Turn::Inside => (number + 1, at.after),
        Turn::After => (number + 1, Some(at.after.unwrap_or(number))),
        Turn::Operands => (number + 1, None),
        Turn::Test => {
            note(found, at);
            (behind, None)
        }
    };
    Cursor { number, after }
}

/// Notes a test at its core; what was noted there first stays.
fn note(found: &mut [Option<usize>], at: Cursor)
    requires { at.number < length found.old }
    ensures { found.new ≡ noted found.old at.number (unwrap_or at.after at.number) }
{
    let decided = at.after.unwrap_or(at.number);
    found[at.number] = Some(found[at.number].unwrap_or(decided));
}

/// The number behind the part of a site at this number. Whatever the sizes say, it is further on and no more than the count of all sites.
fn behind(number: usize, size: usize, count: usize) -> usize
    ensures { result ≡ min (number + max 1 size) count }
{
    number.saturating_add(size.max(1)).min(count)
}
