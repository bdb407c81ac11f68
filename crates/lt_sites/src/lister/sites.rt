ghost use Rattle.std.specs.Prelude.{◌≡◌, ◌+◌, ◌-◌, ◌≤◌, [], ◌∷◌, IfOk, length, map, reverse};
ghost use Rattle.lt_sites.specs.Sites.{node_of, entry_of};
ghost use Rattle.lt_sites.specs.Listed.{entries};

use crate::site::{NodeRef, Site};
use std::alloc::{AllocError, Global};

/// The sites of the nodes that were walked. The walk goes from the last node to the first.
#[derive(Drop)]
pub struct Lister<'u> {
    /// The last node first.
    sites: Vec<Site<'u>>,
}

impl<'u> Lister<'u> {
    /// No site.
    #[tactic(auto, unfolding(crate::specs::Listed::entries))]
    pub fn new(alloc: Global) -> Lister<'u>
        ensures { entries result ≡ [] }
    {
        Lister {
            sites: Vec::new(alloc),
        }
    }

    /// How many sites there are.
    #[tactic(auto, unfolding(crate::specs::Listed::entries))]
    pub fn len(&self) -> usize
        ensures { result ≡ length (entries self.now) }
    {
        self.sites.len()
    }

    /// Puts a node before what is inside of it, which was listed when there were `start` sites.
    #[tactic(auto, unfolding(crate::specs::Listed::entries))]
    pub fn leave(&mut self, node: NodeRef<'u>, start: usize, head: usize) -> Result<(), AllocError>
        requires { start ≤ length (entries self.old) }
        ensures { IfOk result (λ _. entries self.new ≡ record { node = node_of node.entry; size = length (entries self.old) - start + 1; head = head } ∷ entries self.old) }
    {
        let size = self.sites.len() - start + 1;
        self.sites.push(Site { node, size, head })?;
        Ok(())
    }

    /// The sites, the first node first.
    #[tactic(auto, unfolding(crate::specs::Listed::entries))]
    pub fn into_sites(self) -> Vec<Site<'u>>
        ensures { map entry_of result.items ≡ entries self.entry }
    {
        let mut sites = self.sites;
        sites.reverse();
        sites
    }
}
