//! The nodes that are there without the marks too.

ghost use Rattle.std.specs.Prelude.{◌≡◌, IfOk, map};
ghost use Rattle.lt_tree.specs.View.{expression_of};
ghost use Rattle.lt_tree.specs.Nodes.{an_expression};
ghost use Rattle.lt_objectives.specs.Places.{stays_without_marks};
ghost use Rattle.lt_sites.specs.Sites.{node_of, entry_of};
ghost use Rattle.lt_facts.specs.Outside.{mark_size, outside_from, places_from};

use lt_sites::{NodeRef, Site};
use lt_tree::Expr;
use std::alloc::{AllocError, Global};

// Whether an expression is there without the marks too.
fn stays(e: &Expr) -> bool
    ensures { result ≡ stays_without_marks (an_expression (expression_of e.now)) }
{
    !matches!(
        e,
        Expr::Marked(..) | Expr::Decide(..) | Expr::After(..) | Expr::Comma(_)
    )
}

// Whether a node is there without the marks too.
fn stays_without_marks(node: NodeRef<'_>) -> bool
    ensures { result ≡ stays_without_marks (node_of node.entry) }
{
    match node {
        NodeRef::MarkedItem(_) => false,
        NodeRef::Expression(e) => stays(e),
        _ => true,
    }
}

// How many nodes the mark has that begins here.
fn mark_size(site: &Site<'_>) -> usize
    ensures { result ≡ mark_size (entry_of site.now) }
{
    match site.node {
        NodeRef::Mark(_) => site.size,
        _ => 0,
    }
}

/// By number: whether the node is there without the marks too.
pub fn outside_marks(alloc: Global, sites: &[Site<'_>]) -> Result<Vec<bool>, AllocError>
    ensures { IfOk result (λ v. v.items ≡ outside_from 0 (map entry_of sites.now)) }
{
    let mut outside = Vec::new(alloc);
    // How many nodes from here on are in a mark.
    let mut marked = 0;
    for site in sites {
        marked = mark_size(site).max(marked);
        outside.push(marked == 0 && stays_without_marks(site.node))?;
        marked = marked.saturating_sub(1);
    }
    Ok(outside)
}

/// The places of those that are true.
pub fn true_places(alloc: Global, flags: &[bool]) -> Result<Vec<usize>, AllocError>
    ensures { IfOk result (λ v. v.items ≡ places_from 0 flags.now) }
{
    let mut places = Vec::new(alloc);
    for (place, flag) in flags.iter().enumerate() {
        if *flag {
            places.push(place)?;
        }
    }
    Ok(places)
}
