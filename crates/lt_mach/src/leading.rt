//! Nodes that say where the run goes on.

ghost use Rattle.std.specs.Prelude.{◌≡◌, IfOk, Option, List, ℕ};
ghost use Rattle.lt_ir.specs.declared.graph.Graph.{Graph as Held};
ghost use Rattle.lt_ir.specs.declared.code.Code.{Code as HeldCode};
ghost use Rattle.lt_ir.specs.declared.node.Arm.{Arm as HeldArm};
ghost use Rattle.lt_ir.specs.declared.node.Node.TheVariants.{Branch, Switch, Tick};
ghost use Rattle.lt_ir.specs.Tables.{IsAscending, IsTableOf};
ghost use Rattle.lt_mach.specs.Does.{Does, After};

use crate::flow::Flow;
use crate::machine::Machine;
use crate::values::Done;
use lt_acts::{Stop, follow, number, truth};
use lt_ir::Arm;
use lt_model::End;
use std::alloc::AllocError;

impl<'a> Machine<'a> {
    /// The run goes on behind a node that was done, or is over.
    pub fn after(&mut self, done: Done) -> Result<Flow, AllocError>
        ensures { After done self.old self.new result }
    {
        match done.answer {
            Ok(()) => {
                self.call.place = done.next;
                Ok(Flow::Goes)
            }
            Err(Stop::Over(fault)) => Ok(Flow::Over(fault.end())),
            Err(Stop::NoMemory) => Err(AllocError),
        }
    }

    /// One way where a register has a value that isn't 0 or null, else another.
    pub fn branch(&mut self, test: u32, on: u32, off: u32) -> Flow
        ensures { (g : Held) (code : Option HeldCode) → Does g code (Branch test on off) result self.old self.new }
    {
        match truth(&self.memory, &self.call.registers, test) {
            Ok(is_so) => {
                self.call.place = if is_so { on } else { off };
                Flow::Goes
            }
            Err(fault) => Flow::Over(fault.end()),
        }
    }

    /// The way of the number that a register has.
    pub fn switch(&mut self, value: u32, table: &[Arm], default: u32) -> Flow
        requires { IsAscending table.now }
        ensures { (g : Held) (code : Option HeldCode) (arms : List HeldArm) → IsTableOf table.now arms → Does g code (Switch value arms table.now default) result self.old self.new }
    {
        match number(&self.call.registers, value) {
            Ok(z) => {
                self.call.place = follow(table, default, z);
                Flow::Goes
            }
            Err(fault) => Flow::Over(fault.end()),
        }
    }

    /// A tick is spent.
    pub fn tick(&mut self, next: u32) -> Flow
        ensures { (g : Held) (code : Option HeldCode) → Does g code (Tick next) result self.old self.new }
    {
        if self.ticks == 0 {
            return Flow::Over(End::Steps);
        }
        self.ticks -= 1;
        self.call.place = next;
        Flow::Goes
    }
}
