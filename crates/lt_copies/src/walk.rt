//! The walk along the nodes of a unit that judges each.

ghost use Rattle.std.specs.Prelude.{◌≡◌, length, map, IfOk};
ghost use Rattle.lt_tree.specs.Tree as c;
ghost use Rattle.lt_objectives.specs.Tags.{fitting_nodes};
ghost use Rattle.lt_sites.specs.Sites.{AreSitesOf, node_of, entry_of};
ghost use Rattle.lt_copies.specs.Blocks.{tags_of};
ghost use Rattle.lt_copies.specs.Judged.{entered, inside, judged};

use crate::blocks::Blocks;
use lt_sites::{NodeRef, Site};
use lt_tree::{External, ForStart, Stmt};
use std::alloc::{AllocError, Global};

impl Blocks {
    // Declares what a node declares, and opens the block that it begins, behind which so many nodes stand.
    fn enter(&mut self, node: NodeRef<'_>, behind: usize) -> Result<(), AllocError>
        ensures { IfOk result (λ _. self.new ≡ entered (node_of node.entry) behind self.old) }
    {
        match node {
            NodeRef::External(External::Function(function)) => {
                self.declare_tags(&function.specifiers)?;
                self.open(behind)?;
                self.declare_parameters(&function.declarator)
            }
            NodeRef::External(External::Declaration(declaration)) => self.declare_tags(
                &declaration.specifiers,
            ),
            NodeRef::DeclaredItem(declaration) => self.declare_tags(&declaration.specifiers),
            NodeRef::Statement(Stmt::Compound(_)) => self.open(behind),
            NodeRef::Statement(Stmt::For(ForStart::Declaration(declaration), _, _, _)) => {
                self.open(behind)?;
                self.declare_tags(&declaration.specifiers)
            }
            _ => Ok(()),
        }
    }

    // Goes on to a node, where so many nodes are left with it.
    fn go_to(&mut self, site: &Site<'_>, count: usize) -> Result<(), AllocError>
        ensures { IfOk result (λ _. self.new ≡ inside count (entry_of site.now) self.old) }
    {
        self.close(count);
        self.enter(site.node, count.saturating_sub(site.size))
    }
}

/// Of each node of a unit, by its number, whether predicates may copy it.
pub fn fitting_nodes(alloc: Global, sites: &[Site<'_>]) -> Result<Vec<bool>, AllocError>
    ensures nodes { (unit : c.Unit) → AreSitesOf sites.now unit → IfOk result (λ it. it.items ≡ fitting_nodes unit) }
    ensures count { IfOk result (λ it. length it.items ≡ length sites.now) }
{
    let mut blocks = Blocks::new(alloc)?;
    let mut fitting = Vec::new(alloc);
    'sites: for number in 0..sites.len() {
        let site = &sites[number];
        blocks.go_to(site, sites.len() - number)?;
        fitting.push(blocks.fits(site.node))?;
    }
    Ok(fitting)
}
