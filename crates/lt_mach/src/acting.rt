//! The acts of nodes.

ghost use Rattle.std.specs.Prelude.{◌≡◌, ◌≢◌, Some, IfOk};
ghost use Rattle.lt_mach.specs.Does.{Does, HasTable};
ghost use Rattle.lt_mach.specs.Kinds.{kind_of, Computes, Accesses, Places, Leads, Marks};
ghost use Rattle.lt_mach.specs.Standing.{IsFit};

use crate::flow::Flow;
use crate::machine::Machine;
use crate::objects::object;
use crate::values::{access, compute};
use lt_ir::{Code, Graph, Node};
use lt_model::End;
use std::alloc::AllocError;

impl<'a> Machine<'a> {
    // A node that computes a value.
    fn compute(&mut self, graph: &Graph, code: &Code, node: &Node) -> Result<Flow, AllocError>
        requires fit { IsFit graph.now self.old }
        requires kind { kind_of node.now ≡ Computes }
        ensures { IfOk result (λ flow. Does graph.now (Some code.now) node.now flow self.old self.new) }
    {
        let done = compute(graph.model, &self.memory, &mut self.call.registers, node);
        self.after(done)
    }

    // A node that looks at memory or footprints, or changes them.
    fn access(&mut self, graph: &Graph, code: &Code, node: &Node) -> Result<Flow, AllocError>
        requires fit { IsFit graph.now self.old }
        requires kind { kind_of node.now ≡ Accesses }
        ensures { IfOk result (λ flow. Does graph.now (Some code.now) node.now flow self.old self.new) }
    {
        let done = access(
            self.alloc,
            &mut self.memory,
            &mut self.call.registers,
            code.structs.as_slice(),
            node,
        );
        self.after(done)
    }

    // A node that names a variable.
    fn object(&mut self, graph: &Graph, code: &Code, node: &Node) -> Result<Flow, AllocError>
        requires fit { IsFit graph.now self.old }
        requires kind { kind_of node.now ≡ Places }
        ensures { IfOk result (λ flow. Does graph.now (Some code.now) node.now flow self.old self.new) }
    {
        let done = object(
            self.alloc,
            &mut self.call.scope,
            &mut self.memory,
            &mut self.call.registers,
            code.locals.as_slice(),
            node,
        );
        self.after(done)
    }

    // A node that leads the run one way or another.
    fn lead(&mut self, graph: &Graph, code: &Code, node: &Node) -> Result<Flow, AllocError>
        requires fit { IsFit graph.now self.old }
        requires kind { kind_of node.now ≡ Leads }
        requires table { HasTable node.now }
        ensures { IfOk result (λ flow. Does graph.now (Some code.now) node.now flow self.old self.new) }
    {
        match node {
            Node::Branch { test, on, off } => Ok(self.branch(*test, *on, *off)),
            Node::Switch {
                value,
                table,
                default,
                ..
            } => Ok(self.switch(*value, table.as_slice(), *default)),
            Node::Call {
                function,
                to,
                first,
                count,
                next,
            } => self.call(graph, *function, *to, *first, *count, *next),
            Node::Stub { stub, to, next } => self.stub(graph, *stub, *to, *next),
            Node::Stop => Ok(Flow::Over(End::Stopped)),
            Node::Return { value } => self.give(*value),
            Node::Tick { next } => Ok(self.tick(*next)),
            _ => unreachable!(),
        }
    }

    /// The act of a node that makes no mark.
    pub fn act(&mut self, graph: &Graph, code: &Code, node: &Node) -> Result<Flow, AllocError>
        requires fit { IsFit graph.now self.old }
        requires kind { kind_of node.now ≢ Marks }
        requires table { HasTable node.now }
        ensures { IfOk result (λ flow. Does graph.now (Some code.now) node.now flow self.old self.new) }
    {
        match node {
            Node::Constant { .. }
            | Node::Move { .. }
            | Node::Subtract { .. }
            | Node::Apply { .. }
            | Node::Convert { .. }
            | Node::Compare { .. } => self.compute(graph, code, node),
            Node::Load { .. } | Node::Store { .. } | Node::Copy { .. } | Node::Clash { .. } => {
                self.access(graph, code, node)
            }
            Node::Address { .. } | Node::Create { .. } | Node::Seal { .. } | Node::End { .. } =>
                self.object(graph, code, node),
            Node::Mark { .. } => unreachable!(),
            _ => self.lead(graph, code, node),
        }
    }
}
