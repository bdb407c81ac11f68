//! Functions without a body.

ghost use Rattle.std.specs.Prelude.{◌≡◌, IfOk, Option};
ghost use Rattle.lt_ir.specs.declared.code.Code.{Code as HeldCode};
ghost use Rattle.lt_ir.specs.declared.node.Node.TheVariants.{Stub as StubNode};
ghost use Rattle.lt_mach.specs.Does.{Does};
ghost use Rattle.lt_mach.specs.Standing.{IsFit};

use crate::finding::{place_at, stub_at};
use crate::flow::Flow;
use crate::machine::Machine;
use lt_ir::Graph;
use lt_model::{Content, End, Name};
use std::alloc::AllocError;

impl<'a> Machine<'a> {
    /// A register gets the next value for a function without a body, if one is left.
    pub fn stub(&mut self, graph: &Graph, stub: u32, to: u32, next: u32) -> Result<Flow, AllocError>
        requires { IsFit graph.now self.old }
        ensures { (code : Option HeldCode) → IfOk result (λ flow. Does graph.now code (StubNode stub to next) flow self.old self.new) }
    {
        let Some(name) = stub_at(graph, stub) else {
            return Ok(Flow::Over(End::Stopped));
        };
        let place = place_at(self.places.as_slice(), stub);
        match self.stubs.next(place) {
            Some(z) => {
                self.call.registers.put(to, Content::Number(z));
                self.call.place = next;
                Ok(Flow::Goes)
            }
            None => {
                let name = Name::new(self.alloc, name.as_slice())?;
                Ok(Flow::Over(End::NoInput(name)))
            }
        }
    }
}
