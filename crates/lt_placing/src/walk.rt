ghost use Rattle.std.specs.Prelude.{◌≡◌, ◌≤◌, ◌∷◌, false, IfOk, MatchOption};
ghost use Rattle.lt_placing.specs.NewMarks.{new_marks};
ghost use Rattle.lt_placing.specs.Walks.{StandsAt, GoesOn, StartsCopy, is_reached};

use crate::new_mark::NewMark;
use std::alloc::{AllocError, Global};
use std::collections::VecDeque;

/// A walk over the nodes of a unit, in the order of their numbers.
#[derive(Drop)]
pub struct Walk {
    /// The marks that are still to be placed, in the order of their places.
    pub marks: VecDeque<NewMark>,
    /// The number of the next node. It is wider than a place, so that its last value, at which it stays, is no mark's place.
    pub next: u128,
}

impl Walk {
    /// The walk before the first node. Marks of one place keep their order.
    pub fn new(marks: Vec<NewMark>) -> Result<Walk, AllocError>
        ensures { IfOk result (λ walk. StandsAt walk (new_marks marks.items) 0) }
    {
        let mut sorted = marks;
        sorted.sort_by_key(|it| it.place)?;
        Ok(Walk {
            marks: VecDeque::from_vec(sorted),
            next: 0,
        })
    }

    /// A walk before the same node that places nothing.
    pub fn without_marks(&self, alloc: Global) -> Walk
        ensures { StartsCopy self.now result }
    {
        Walk {
            marks: VecDeque::new(alloc),
            next: self.next,
        }
    }

    /// Goes on behind one node.
    pub fn step(&mut self)
        ensures { GoesOn self.old self.new 1 }
    {
        self.next = self.next.saturating_add(1);
    }

    fn has_reached_mark(&self) -> bool
        ensures { result ≡ is_reached self.now.next (new_marks self.now.marks.items) }
    {
        match self.marks.front() {
            None => false,
            Some(it) => u128::from(it.place) <= self.next,
        }
    }

    /// The next mark, unless its place is behind the next node.
    pub fn take_mark(&mut self) -> Option<NewMark>
        ensures number { self.new.next ≡ self.old.next }
        ensures cases { MatchOption result (self.new.marks.items ≡ self.old.marks.items) (λ it. self.old.marks.items ≡ it ∷ self.new.marks.items) }
        ensures reached { MatchOption result (is_reached self.old.next (new_marks self.old.marks.items) ≡ false) (λ it. it.place ≤ self.old.next) }
    {
        if self.has_reached_mark() {
            self.marks.pop_front()
        } else {
            None
        }
    }
}
