//! Where a run stands.

ghost use Rattle.std.specs.Prelude.{◌≡◌, [], IfOk, OnOk};
ghost use Rattle.lt_ir.specs.Starting.{nowhere};
ghost use Rattle.lt_mach.specs.Standing.{IsFit, at_of};
ghost use Rattle.lt_mach.specs.Calling.{Keeps, Waits, beginning};

use lt_ir::{Code, Graph};
use lt_mach_parts::{Bounds, Registers, Scope, Stubs, stub_places};
use lt_mem::Memory;
use lt_model::{Content, Input};
use std::alloc::{AllocError, Global};
use std::mem::swap;

/// An active call: where it stands, its registers, and the variables in scope.
#[derive(Drop)]
pub struct Call {
    pub code: u32,
    pub place: u32,
    pub registers: Registers,
    pub scope: Scope,
}

/// A call that waits for one that it made, and the register that gets its value.
#[derive(Drop)]
pub struct Caller {
    pub call: Call,
    pub target: Option<u32>,
}

/// Where a run stands.
#[derive(Drop)]
pub struct Machine<'a> {
    pub alloc: Global,
    pub call: Call,
    /// The innermost last.
    pub callers: Vec<Caller>,
    /// Calls that are over, whose room is used again.
    pub spare: Vec<Call>,
    /// Where the arguments of a call wait.
    pub arguments: Vec<Content>,
    pub memory: Memory,
    pub stubs: Stubs<'a>,
    /// The places of the values for the graph's functions without a body.
    pub places: Vec<Option<usize>>,
    pub ticks: u64,
    /// How many calls are active.
    pub depth: u32,
}

impl Call {
    // A call without registers and variables.
    fn new(alloc: Global) -> Result<Call, AllocError>
        ensures { IfOk result (λ call. call.scope ≡ []) }
    {
        let scope = Scope::new(alloc, Bounds::new(alloc))?;
        Ok(Call {
            code: 0,
            place: 0,
            registers: Registers::new(alloc),
            scope,
        })
    }
}

impl<'a> Machine<'a> {
    /// A machine for a graph, where nothing is there but the input's values for functions without a body.
    pub fn new(
        alloc: Global,
        graph: &Graph,
        input: &'a Input,
        ticks: u64,
    ) -> Result<Machine<'a>, AllocError>
        ensures fit { IfOk result (IsFit graph.now) }
        ensures stands { IfOk result (λ machine. at_of machine [] ≡ nowhere input.now ticks) }
        ensures first { IfOk result (λ machine. machine.callers.items ≡ []) }
    {
        let call = Call::new(alloc)?;
        let sets = input.stubs.as_slice();
        let places = stub_places(alloc, graph.stubs.as_slice(), sets)?;
        let stubs = Stubs::new(alloc, sets)?;
        let memory = Memory::new(alloc, graph.model)?;
        Ok(Machine {
            alloc,
            call,
            callers: Vec::new(alloc),
            spare: Vec::new(alloc),
            arguments: Vec::new(alloc),
            memory,
            stubs,
            places,
            ticks,
            depth: 1,
        })
    }

    // A call whose room may be used again.
    fn room(&mut self) -> Result<Call, AllocError>
        ensures { Keeps self.old self.new }
    {
        match self.spare.pop() {
            Some(call) => Ok(call),
            None => Call::new(self.alloc),
        }
    }

    /// The call waits to go on at a place, and another one is there that has of its variables those that are there from the start.
    pub fn wait(&mut self, target: Option<u32>, place: u32) -> Result<(), AllocError>
        ensures { OnOk result (Waits target place self.old self.new) }
    {
        let mut call = self.room()?;
        call.scope.enter(&self.call.scope)?;
        self.call.place = place;
        swap(&mut call, &mut self.call);
        self.callers.push(Caller { call, target })?;
        Ok(())
    }

    /// The call begins with the code of a number, its registers blank.
    pub fn start(&mut self, number: u32, code: &Code) -> Result<(), AllocError>
        ensures { OnOk result (self.new ≡ beginning number code.now self.old) }
    {
        self.call.registers.begin(code.registers)?;
        self.call.code = number;
        self.call.place = code.start;
        Ok(())
    }
}
