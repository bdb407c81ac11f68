//! The blocks around a node, with the tags that they declare.

ghost use Rattle.std.specs.Prelude.{◌≡◌, [], ◌∷◌, IfOk};
ghost use Rattle.std.specs.List.{list_any};
ghost use Rattle.std.specs.Str.{bytes_eq};
ghost use Rattle.lt_copies.specs.Blocks.{tags_of, declares, opened, left, is_over, closed};

use lt_scope::Scopes;
use std::alloc::{AllocError, Global};
use std::marker::Model;

/// The blocks that are open, the file around them. Tags are found through a map.
#[derive(Drop)]
pub struct Blocks {
    scopes: Scopes<()>,
    /// Of each block how many nodes stand behind it, of the innermost last.
    behind: Vec<usize>,
}

impl Model for Blocks {
    ghost use Rattle.lt_copies.specs.Blocks.{BlocksValue};

    ghost Value = { BlocksValue };

    ghost use Rattle.std.specs.Prelude.{reverse};

    ghost view = { λ b. record { frames = b.scopes; behind = reverse b.behind.items } };
}

impl Blocks {
    /// A file that declares no tag.
    pub fn new(alloc: Global) -> Result<Blocks, AllocError>
        ensures { IfOk result (λ blocks. blocks ≡ record { frames = [] ∷ []; behind = [] }) }
    {
        let mut scopes = Scopes::new(alloc);
        scopes.open()?;
        Ok(Blocks {
            scopes,
            behind: Vec::new(alloc),
        })
    }

    /// Whether a tag is in scope.
    pub fn knows(&self, tag: &[u8]) -> bool
        ensures { result ≡ list_any (bytes_eq tag.now) (tags_of self.now.frames) }
    {
        self.scopes.find(tag).is_some()
    }

    /// Declares a tag in the innermost block.
    pub fn declare(&mut self, tag: &[u8]) -> Result<(), AllocError>
        ensures { IfOk result (λ _. self.new ≡ declares tag.now self.old) }
    {
        self.scopes.bind(tag, ())
    }

    /// Opens a block, behind which so many nodes stand.
    pub fn open(&mut self, behind: usize) -> Result<(), AllocError>
        ensures { IfOk result (λ _. self.new ≡ opened behind self.old) }
    {
        self.scopes.open()?;
        self.behind.push(behind)?;
        Ok(())
    }

    /// Closes the blocks that end before a node, where so many nodes are left with it.
    pub fn close(&mut self, count: usize)
        ensures { self.new ≡ closed count self.old }
    {
        'ended: while self.is_over(count) {
            self.leave();
        }
    }

    // Whether the innermost block ends before the node.
    fn is_over(&self, count: usize) -> bool
        ensures { result ≡ is_over count self.now.behind }
    {
        match self.behind.last() {
            None => false,
            Some(behind) => count <= *behind,
        }
    }

    // Takes off the innermost block.
    fn leave(&mut self)
        ensures { self.new ≡ left self.old }
    {
        let _names = self.scopes.close();
        let _behind = self.behind.pop();
    }
}
