ghost use Rattle.std.specs.Prelude.{◌≡◌, ◌<◌, ◌≤◌, length, drop, slice_get, Some, IfSome, option_map};
ghost use Rattle.lt_tree.specs.Tree as c;
ghost use Rattle.lt_tree.specs.Nodes.{nodes, an_expression};
ghost use Rattle.lt_objectives.specs.Places.{core, value_part};
ghost use Rattle.lt_sites.specs.Sites.{AreSitesOf, node_of};
ghost use Rattle.lt_places.specs.Walks.{behind_parts, before, inner, reached};

use lt_sites::{NodeRef, Site};
use lt_tree::Expr;

/// What may stand around the expression that is looked for.
#[derive(Clone, Copy)]
enum Wrapping {
    Marks,
    /// Marks, and comma expressions, of which the last part is gone into.
    MarksAndCommas,
}

/// The number of an expression without the marks around it, of the number at which it begins.
pub fn core_number(sites: &[Site<'_>], k: usize) -> usize
    ensures { (unit : c.Unit) (e : c.Expression) → AreSitesOf sites.now unit → slice_get (nodes unit) k ≡ Some (an_expression e) → result ≡ (core k e).number }
{
    innermost(Wrapping::Marks, sites, k)
}

/// The number of the part of an expression whose value is that of the whole, of the number at which the expression begins.
pub fn value_part_number(sites: &[Site<'_>], k: usize) -> usize
    ensures { (unit : c.Unit) (e : c.Expression) → AreSitesOf sites.now unit → slice_get (nodes unit) k ≡ Some (an_expression e) → result ≡ (value_part k e).number }
{
    innermost(Wrapping::MarksAndCommas, sites, k)
}

/// The number of the first expression that is no wrapping, from the one on that begins at this number.
fn innermost(wrapping: Wrapping, sites: &[Site<'_>], k: usize) -> usize
    ensures { (unit : c.Unit) (e : c.Expression) → AreSitesOf sites.now unit → slice_get (nodes unit) k ≡ Some (an_expression e) → result ≡ (reached wrapping k e).number }
{
    let mut at = k;
    'wrappings: while let Some(next) = inside(wrapping, sites, at) {
        at = next;
    }
    at
}

/// The number of the expression in the wrapping that begins at this number, if one does.
fn inside(wrapping: Wrapping, sites: &[Site<'_>], k: usize) -> Option<usize>
    ensures further { IfSome result (λ n. (k < n) × (n ≤ length sites.now)) }
    ensures value { option_map (λ n. drop n sites.now) result ≡ inner wrapping (drop k sites.now) }
{
    let count = parts_before(wrapping, sites.get(k)?)?;
    Some(behind_parts(sites, k + 1, count))
}

/// How many parts stand in a wrapping before the expression that is looked for.
fn parts_before(wrapping: Wrapping, site: &Site<'_>) -> Option<usize>
    ensures { result ≡ before wrapping (node_of site.now.node) }
{
    let NodeRef::Expression(e) = site.node else {
        return None;
    };
    match e {
        Expr::Marked(marks, _) => Some(marks.len()),
        Expr::Decide(..) | Expr::After(..) => Some(0),
        Expr::Comma(parts) => match wrapping {
            Wrapping::Marks => None,
            Wrapping::MarksAndCommas => parts.len().checked_sub(1),
        },
        _ => None,
    }
}

/// The number behind so many parts, which stand one behind the other from this number on.
fn behind_parts(sites: &[Site<'_>], from: usize, count: usize) -> usize
    requires { from ≤ length sites.now }
    ensures at_least { from ≤ result }
    ensures at_most { result ≤ length sites.now }
    ensures value { drop result sites.now ≡ behind_parts count (drop from sites.now) }
{
    let mut end = from;
    'parts: for _part in 0..count {
        if let Some(site) = sites.get(end) {
            end += site.size.min(sites.len() - end);
        }
    }
    end
}
