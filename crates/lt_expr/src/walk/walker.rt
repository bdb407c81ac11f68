ghost use Rattle.std.specs.Prelude.{◌≡◌, IfOk, [], ◌∷◌, drop, reverse};
ghost use Rattle.lt_expr.specs.Walk.{last_end};

use std::alloc::{AllocError, Global};
use std::marker::Model;

/// The ends of nodes that are still to be walked, and the spots of those that were, from the last to the first.
#[derive(Drop)]
pub struct Walker {
    /// The bytes that the nodes begin at, in the order in which the nodes end.
    ends: Vec<u32>,
    /// The last spot first.
    spots: Vec<u32>,
}

impl Model for Walker {
    ghost use Rattle.std.specs.Prelude.{reverse};
    ghost use Rattle.lt_expr.specs.Walk.{Walked};

    ghost Value = { Walked };

    ghost view = { λ w. (reverse w.ends.items, reverse w.spots.items) };
}

impl Walker {
    /// A walk that begins behind the node that ended last.
    pub fn new(alloc: Global, ends: Vec<u32>) -> Walker
        ensures { result ≡ (reverse ends.items, []) }
    {
        Walker {
            ends,
            spots: Vec::new(alloc),
        }
    }

    /// Goes into a node from behind, and gives the byte that it begins at.
    pub fn enter(&mut self) -> u32
        ensures start { result ≡ last_end self.old.0 }
        ensures left { self.new ≡ (drop 1 self.old.0, self.old.1) }
    {
        self.ends.pop().unwrap_or(0)
    }

    /// Leaves a node to its front, with its spot.
    pub fn leave(&mut self, start: u32) -> Result<(), AllocError>
        ensures { IfOk result (λ _. self.new ≡ (self.old.0, start ∷ self.old.1)) }
    {
        self.spots.push(start)?;
        Ok(())
    }

    /// The spots of what was walked, in the order of the walk from parent to child.
    pub fn into_spots(self) -> Vec<u32>
        ensures { result.items ≡ self.1 }
    {
        let mut spots = self.spots;
        spots.reverse();
        spots
    }
}
