//! Variables that are bound, each with its block.

ghost use Rattle.std.specs.Prelude.{◌≡◌, ◌↔◌, ◌∷◌, [], true, IfOk, OnOk, OnErr};
ghost use Rattle.lt_ir.specs.Running.{block_among, without, same_variable};
ghost use Rattle.lt_mach_parts.specs.Bindings.{last_of};

use crate::stacks::Stacks;
use lt_ir::Variable;
use std::alloc::{AllocError, Global};
use std::marker::Model;

/// A variable, and its block.
#[derive(Clone, Copy)]
pub struct HeldBound {
    pub variable: Variable,
    pub block: u32,
}

/// Variables with their blocks; the block of one is found by its number. Contracts see them in their order, the innermost first.
#[derive(Drop)]
pub struct Bounds {
    alloc: Global,
    // The innermost last.
    list: Vec<HeldBound>,
    stacks: Stacks,
}

impl Model for Bounds {
    ghost use Rattle.std.specs.Prelude.{List};
    ghost use Rattle.lt_ir.specs.Running.{Bound};
    ghost use Rattle.lt_mach_parts.specs.Bindings.{scope_of};
    ghost use Rattle.lt_mach_parts.specs.Stacks.{AreOf};

    ghost Value = { List Bound };

    ghost view = { λ b. scope_of b.list.items };

    ghost invariant = { λ b. AreOf b.stacks (scope_of b.list.items) };
}

fn is_same(a: Variable, b: Variable) -> bool
    ensures { result ≡ same_variable a b }
{
    match (a, b) {
        (Variable::Parameter(m), Variable::Parameter(n)) => m == n,
        (Variable::Local(m), Variable::Local(n)) => m == n,
        (Variable::Static(m), Variable::Static(n)) => m == n,
        _ => false,
    }
}

// The place of the last one of a variable. It is looked for from the end on, where it is mostly found at once.
fn last_of(list: &[HeldBound], v: Variable) -> Option<usize>
    ensures { result ≡ last_of list.now v }
{
    let mut place = list.len();
    while place > 0 {
        place -= 1;
        if is_same(list[place].variable, v) {
            return Some(place);
        }
    }
    None
}

impl Bounds {
    /// No variable. It takes no memory.
    pub fn new(alloc: Global) -> Bounds
        ensures { result ≡ [] }
    {
        Bounds {
            alloc,
            list: Vec::new(alloc),
            stacks: Stacks::new(alloc),
        }
    }

    /// Whether no variable is bound.
    pub fn is_empty(&self) -> bool
        ensures { result ≡ true ↔ self.now ≡ [] }
    {
        self.list.is_empty()
    }

    /// No variable any more; the room is kept.
    pub fn clear(&mut self)
        ensures { self.new ≡ [] }
    {
        if !self.list.is_empty() {
            self.list.clear();
            self.stacks.clear();
        }
    }

    /// The block of a variable.
    pub fn block(&self, v: Variable) -> Option<u32>
        ensures { result ≡ block_among self.now v }
    {
        self.stacks.first(v)
    }

    /// A variable has a block, in front of all others. For want of memory nothing changes.
    pub fn bind(&mut self, variable: Variable, block: u32) -> Result<(), AllocError>
        ensures done { OnOk result (self.new ≡ record { variable = variable; block = block } ∷ self.old) }
        ensures kept { OnErr result (self.new ≡ self.old) }
    {
        self.stacks.push(variable, block)?;
        if self.list.push(HeldBound { variable, block }).is_err() {
            self.stacks.pop(variable);
            return Err(AllocError);
        }
        Ok(())
    }

    /// The innermost block of a variable isn't its block any more.
    pub fn remove(&mut self, v: Variable)
        ensures { self.new ≡ without self.old v }
    {
        match last_of(self.list.as_slice(), v) {
            Some(place) => {
                self.list.remove(place);
                self.stacks.pop(v);
            }
            None => {}
        }
    }

    /// The same variables with the same blocks.
    pub fn copy(&self) -> Result<Bounds, AllocError>
        ensures { IfOk result (λ copy. copy ≡ self.now) }
    {
        let mut copy = Bounds::new(self.alloc);
        for it in self.list.as_slice() {
            copy.bind(it.variable, it.block)?;
        }
        Ok(copy)
    }
}
