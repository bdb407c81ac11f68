//! The objects of the variables that are in scope.

ghost use Rattle.std.specs.Prelude.{◌≡◌, ◌∷◌, true, false, IfOk, OnOk, OnErr};
ghost use Rattle.lt_ir.specs.Running.{block_among, without, statics_of, is_static};
ghost use Rattle.lt_ir.specs.Graph.{are_static};

use crate::bounds::Bounds;
use lt_ir::Variable;
use std::alloc::{AllocError, Global};
use std::marker::Model;
use std::rc::Rc;

/// The variables in scope: those of a call, and those that are there from the start, which all calls share. Contracts see them with
/// their blocks, the innermost first.
#[derive(Drop)]
pub struct Scope {
    alloc: Global,
    own: Bounds,
    statics: Rc<Bounds>,
}

impl Model for Scope {
    ghost use Rattle.std.specs.Prelude.{◌≡◌, ◌++◌, true, List};
    ghost use Rattle.lt_ir.specs.Running.{Bound};
    ghost use Rattle.lt_ir.specs.Graph.{are_static};
    ghost use Rattle.lt_mach_parts.specs.Bindings.{are_own};

    ghost Value = { List Bound };

    ghost view = { λ s. s.own ++ s.statics.value };

    ghost invariant = { λ s. (are_own s.own ≡ true) × (are_static s.statics.value ≡ true) };
}

fn is_static(v: Variable) -> bool
    ensures { result ≡ is_static v }
{
    matches!(v, Variable::Static(_))
}

impl Scope {
    /// The scope of variables that are there from the start.
    pub fn new(alloc: Global, statics: Bounds) -> Result<Scope, AllocError>
        requires { are_static statics ≡ true }
        ensures { IfOk result (λ scope. scope ≡ statics) }
    {
        let statics = Rc::new(alloc, statics)?;
        Ok(Scope {
            alloc,
            own: Bounds::new(alloc),
            statics,
        })
    }

    /// The scope of a call: of the caller's variables those that are there from the start. What it had before is forgotten.
    pub fn enter(&mut self, caller: &Scope) -> Result<(), AllocError>
        ensures { OnOk result (self.new ≡ statics_of caller.now) }
    {
        self.statics = caller.statics.clone()?;
        self.own.clear();
        Ok(())
    }

    /// The block of a variable.
    pub fn block(&self, v: Variable) -> Option<u32>
        ensures { result ≡ block_among self.now v }
    {
        if is_static(v) {
            self.statics.block(v)
        } else {
            self.own.block(v)
        }
    }

    /// A variable of the call has a block, in front of all others. For want of memory nothing changes.
    pub fn bind(&mut self, v: Variable, block: u32) -> Result<(), AllocError>
        requires { is_static v ≡ false }
        ensures done { OnOk result (self.new ≡ record { variable = v; block = block } ∷ self.old) }
        ensures kept { OnErr result (self.new ≡ self.old) }
    {
        self.own.bind(v, block)
    }

    /// The innermost block of a variable isn't its block any more.
    pub fn remove(&mut self, v: Variable) -> Result<(), AllocError>
        ensures { OnOk result (self.new ≡ without self.old v) }
    {
        if is_static(v) {
            let mut statics = self.statics.copy()?;
            statics.remove(v);
            self.statics = Rc::new(self.alloc, statics)?;
        } else {
            self.own.remove(v);
        }
        Ok(())
    }

    /// Whether all variables are there from the start.
    pub fn are_static(&self) -> bool
        ensures { result ≡ are_static self.now }
    {
        self.own.is_empty()
    }
}
