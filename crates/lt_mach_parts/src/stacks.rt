//! The blocks of variables, found by the number of the variable.

ghost use Rattle.std.specs.Prelude.{◌≡◌, ◌≢◌, ◌<◌, ◌∷◌, [], length, OnOk, OnErr};
ghost use Rattle.lt_mach_parts.specs.Stacks.{first_of, rest_of, stack_at, AreSame, IsPut, blocks_at, AllSame, ArePut};

use lt_ir::Variable;
use std::alloc::{AllocError, Global};
use std::marker::Model;

/// The blocks of one variable. Contracts see the innermost first.
#[derive(Drop)]
struct Stack {
    innermost: Option<u32>,
    // From the outermost on. A variable that begins once at a time has none.
    outer: Vec<u32>,
}

impl Model for Stack {
    ghost use Rattle.std.specs.Prelude.{List, ℕ};
    ghost use Rattle.lt_mach_parts.specs.Stacks.{stack_of};

    ghost Value = { List ℕ };

    ghost view = { λ s. stack_of s.innermost s.outer.items };
}

impl Stack {
    fn new(alloc: Global) -> Stack
        ensures { result ≡ [] }
    {
        Stack {
            innermost: None,
            outer: Vec::new(alloc),
        }
    }

    fn first(&self) -> Option<u32>
        ensures { result ≡ first_of self.now }
    {
        self.innermost
    }

    #[tactic(auto, using(crate::proofs::Stacked::turned_behind))]
    fn push(&mut self, block: u32) -> Result<(), AllocError>
        ensures done { OnOk result (self.new ≡ block ∷ self.old) }
        ensures kept { OnErr result (self.new ≡ self.old) }
    {
        if let Some(hidden) = self.innermost {
            self.outer.push(hidden)?;
        } else {
            self.outer.clear();
        }
        self.innermost = Some(block);
        Ok(())
    }

    fn pop(&mut self)
        ensures { self.new ≡ rest_of self.old }
    {
        if self.innermost.is_some() {
            self.innermost = self.outer.pop();
        }
    }
}

// Gives the list a place of this number.
#[tactic(auto, using(crate::proofs::Stacked::one_more))]
fn grow(alloc: Global, list: &mut Vec<Stack>, k: usize) -> Result<(), AllocError>
    ensures same { AreSame list.old.items list.new.items }
    ensures there { OnOk result (k < length list.new.items) }
{
    while list.len() <= k {
        list.push(Stack::new(alloc))?;
    }
    Ok(())
}

// The innermost block at a number.
#[tactic(auto, using(crate::proofs::Stacked::at_past, crate::proofs::Stacked::at_within))]
fn first(list: &[Stack], k: u32) -> Option<u32>
    ensures { result ≡ first_of (stack_at list.now k) }
{
    let k = k as usize;
    if k < list.len() {
        list[k].first()
    } else {
        None
    }
}

// One more block at a number.
fn push(alloc: Global, list: &mut Vec<Stack>, k: u32, block: u32) -> Result<(), AllocError>
    ensures done { OnOk result (IsPut list.old.items list.new.items k (block ∷ stack_at list.old.items k)) }
    ensures kept { OnErr result (AreSame list.old.items list.new.items) }
{
    let k = k as usize;
    grow(alloc, list, k)?;
    let stack = &mut list[k];
    stack.push(block)
}

// The innermost block at a number isn't there any more.
fn pop(list: &mut Vec<Stack>, k: u32)
    ensures { IsPut list.old.items list.new.items k (rest_of (stack_at list.old.items k)) }
{
    let k = k as usize;
    if k < list.len() {
        let stack = &mut list[k];
        stack.pop();
    }
}

/// The blocks of each variable, the innermost first.
#[derive(Drop)]
pub struct Stacks {
    alloc: Global,
    parameters: Vec<Stack>,
    locals: Vec<Stack>,
    statics: Vec<Stack>,
}

impl Model for Stacks {
    ghost use Rattle.lt_mach_parts.specs.Stacks.{Stacks as Held};

    ghost Value = { Held };

    ghost view = { λ s. record { parameters = s.parameters.items; locals = s.locals.items; statics = s.statics.items } };
}

impl Stacks {
    /// No blocks. It takes no memory.
    pub fn new(alloc: Global) -> Stacks
        ensures { result ≡ record { parameters = []; locals = []; statics = [] } }
    {
        Stacks {
            alloc,
            parameters: Vec::new(alloc),
            locals: Vec::new(alloc),
            statics: Vec::new(alloc),
        }
    }

    /// The innermost block of a variable.
    pub fn first(&self, v: Variable) -> Option<u32>
        ensures { result ≡ first_of (blocks_at self.now v) }
    {
        match v {
            Variable::Parameter(k) => first(self.parameters.as_slice(), k),
            Variable::Local(k) => first(self.locals.as_slice(), k),
            Variable::Static(k) => first(self.statics.as_slice(), k),
        }
    }

    /// One more block of a variable. For want of memory nothing changes.
    pub fn push(&mut self, v: Variable, block: u32) -> Result<(), AllocError>
        ensures done { OnOk result (ArePut self.old self.new v (block ∷ blocks_at self.old v)) }
        ensures kept { OnErr result (AllSame self.old self.new) }
    {
        match v {
            Variable::Parameter(k) => push(self.alloc, &mut self.parameters, k, block),
            Variable::Local(k) => push(self.alloc, &mut self.locals, k, block),
            Variable::Static(k) => push(self.alloc, &mut self.statics, k, block),
        }
    }

    /// The innermost block of a variable isn't there any more.
    pub fn pop(&mut self, v: Variable)
        ensures { ArePut self.old self.new v (rest_of (blocks_at self.old v)) }
    {
        match v {
            Variable::Parameter(k) => pop(&mut self.parameters, k),
            Variable::Local(k) => pop(&mut self.locals, k),
            Variable::Static(k) => pop(&mut self.statics, k),
        }
    }

    /// No blocks any more.
    pub fn clear(&mut self)
        ensures { self.new ≡ record { parameters = []; locals = []; statics = [] } }
    {
        self.parameters.clear();
        self.locals.clear();
        self.statics.clear();
    }
}
