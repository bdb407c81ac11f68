//! Calls that are made and that return.

ghost use Rattle.std.specs.Prelude.{◌≡◌, IfOk, Option, List};
ghost use Rattle.lt_ir.specs.declared.graph.Graph.{Graph as Held};
ghost use Rattle.lt_ir.specs.declared.code.Code.{Code as HeldCode};
ghost use Rattle.lt_ir.specs.declared.node.Node.TheVariants.{Call as CallNode, Return as ReturnNode};
ghost use Rattle.lt_model.specs.Memory.{Block};
ghost use Rattle.lt_ir.specs.Graph.{given, targets};
ghost use Rattle.lt_acts.specs.Acts.{Reads};
ghost use Rattle.lt_mach.specs.Does.{Does};
ghost use Rattle.lt_mach.specs.Calling.{Enters, Gathers, Leaves};

use crate::finding::code_at;
use crate::flow::Flow;
use crate::machine::{Call, Caller, Machine};
use crate::parameters::take_arguments;
use lt_acts::{Fault, Stop};
use lt_ir::{Code, Given, Graph};
use lt_mach_parts::Registers;
use lt_model::{Content, End};
use std::alloc::AllocError;
use std::mem::swap;

/// The most active calls, the entry's included.
const MOST_CALLS: u32 = 1_024;

// The value that a call gives.
fn given(registers: &Registers, value: Given) -> Result<Content, Fault>
    ensures { (m : List Block) → Reads (given registers.now value) m result }
{
    match value {
        Given::Nothing => Ok(Content::Unset),
        Given::Fixed(content) => Ok(content),
        Given::Held(register) => registers.content(register).ok_or(Fault::Absurd),
    }
}

// What the registers from one on have, so many, unless one of them has nothing.
fn gather(
    contents: &mut Vec<Content>,
    registers: &Registers,
    first: u32,
    count: u32,
) -> Result<bool, AllocError>
    ensures { IfOk result (λ all. Gathers registers.now first count all contents.new.items) }
{
    contents.clear();
    for k in 0..count {
        let register = first.checked_add(k).ok_or(AllocError)?;
        match registers.content(register) {
            Some(content) => contents.push(content)?,
            None => return Ok(false),
        }
    }
    Ok(true)
}

impl Caller {
    // The call goes on with the value of the one that it made.
    fn take(self, content: Content) -> Call
        ensures { result ≡ record self.call { registers = targets self.call.registers self.target content } }
    {
        let mut call = self.call;
        if let Some(to) = self.target {
            call.registers.put(to, content);
        }
        call
    }
}

impl<'a> Machine<'a> {
    // The caller goes on with a value.
    fn leave(&mut self, content: Content) -> Result<Flow, AllocError>
        ensures { IfOk result (λ flow. Leaves content flow self.old self.new) }
    {
        let Some(caller) = self.callers.pop() else {
            return Ok(Flow::Over(End::Returned));
        };
        if !self.call.scope.are_static() {
            return Ok(Flow::Over(End::Stopped));
        }
        let mut call = caller.take(content);
        swap(&mut call, &mut self.call);
        self.spare.push(call)?;
        self.depth = self.depth.saturating_sub(1);
        Ok(Flow::Goes)
    }

    // A function is entered with the arguments that wait; a register gets its value, and the call goes on at a place.
    fn enter(
        &mut self,
        function: u32,
        code: &Code,
        target: Option<u32>,
        next: u32,
    ) -> Result<Flow, AllocError>
        ensures { IfOk result (λ flow. Enters self.old.memory.model function code.now target next flow self.old self.new) }
    {
        if self.depth >= MOST_CALLS {
            return Ok(Flow::Over(End::Deep));
        }
        self.depth += 1;
        self.wait(target, next)?;
        match take_arguments(
            &mut self.call.scope,
            &mut self.memory,
            code.params.as_slice(),
            self.arguments.as_slice(),
        ) {
            Ok(()) => {
                self.start(function, code)?;
                Ok(Flow::Goes)
            }
            Err(Stop::Over(fault)) => Ok(Flow::Over(fault.end())),
            Err(Stop::NoMemory) => Err(AllocError),
        }
    }

    /// A function is called with what the registers from one on have, so many.
    pub fn call(
        &mut self,
        graph: &Graph,
        function: u32,
        target: Option<u32>,
        first: u32,
        count: u32,
        next: u32,
    ) -> Result<Flow, AllocError>
        requires { self.old.memory.model ≡ graph.now.model }
        ensures { (code : Option HeldCode) → IfOk result (λ flow. Does graph.now code (CallNode function target first count next) flow self.old self.new) }
    {
        let Some(code) = code_at(graph, function) else {
            return Ok(Flow::Over(End::Stopped));
        };
        if !gather(&mut self.arguments, &self.call.registers, first, count)? {
            return Ok(Flow::Over(End::Stopped));
        }
        self.enter(function, code, target, next)
    }

    /// A call gives its value.
    pub fn give(&mut self, value: Given) -> Result<Flow, AllocError>
        ensures { (g : Held) (code : Option HeldCode) → IfOk result (λ flow. Does g code (ReturnNode value) flow self.old self.new) }
    {
        match given(&self.call.registers, value) {
            Ok(content) => self.leave(content),
            Err(fault) => Ok(Flow::Over(fault.end())),
        }
    }
}
