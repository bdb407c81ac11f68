//! Steps of a run.

ghost use Rattle.std.specs.Prelude.{◌≡◌, ℕ, Option, Some, IfOk, OnOk};
ghost use Rattle.lt_ir.specs.declared.code.Code.{Code as HeldCode};
ghost use Rattle.lt_ir.specs.declared.node.Node.TheVariants.{Mark as MarkNode};
ghost use Rattle.lt_mach.specs.declared.flow.Flow.TheVariants.{Goes};
ghost use Rattle.lt_mach.specs.Does.{HasTable, Sees, moved_on};
ghost use Rattle.lt_mach.specs.Standing.{IsFit, IsReady, Steps, Finishes};

use crate::finding::{code_at, label_at, node_at};
use crate::flow::Flow;
use crate::machine::Machine;
use crate::watch::Watch;
use lt_acts::mark;
use lt_ends::runs_are_over;
use lt_ir::{Code, Graph, Node, Pure};
use lt_model::End;
use std::alloc::AllocError;

impl<'a> Machine<'a> {
    // A watch sees the mark that a label makes, if there is one.
    fn mark<W: Watch>(
        &self,
        graph: &Graph,
        label: u32,
        predicate: &Pure,
        bound: &[Pure],
        watch: &mut W,
    ) -> Result<(), AllocError>
        requires { IsFit graph.now self.now }
        ensures { OnOk result ((o : Option HeldCode) (next : ℕ) → Sees W.saw graph.now o (MarkNode label predicate.now bound.now next) Goes self.now (moved_on next self.now) watch.old watch.new) }
    {
        match label_at(graph, label) {
            Some(label) => {
                let mark = mark(
                    self.alloc,
                    &self.call.scope,
                    &self.memory,
                    label,
                    predicate,
                    bound,
                )?;
                watch.see(self.alloc, &mark)?;
                Ok(())
            }
            None => Ok(()),
        }
    }

    // The act of a node; a watch sees the mark that it makes, if it makes one.
    fn show<W: Watch>(
        &mut self,
        graph: &Graph,
        code: &Code,
        node: &Node,
        watch: &mut W,
    ) -> Result<Flow, AllocError>
        requires fit { IsFit graph.now self.old }
        requires table { HasTable node.now }
        ensures { IfOk result (λ flow. Sees W.saw graph.now (Some code.now) node.now flow self.old self.new watch.old watch.new) }
    {
        match node {
            Node::Mark {
                label,
                predicate,
                bound,
                next,
            } => {
                self.mark(graph, *label, predicate, bound.as_slice(), watch)?;
                self.call.place = *next;
                Ok(Flow::Goes)
            }
            _ => self.act(graph, code, node),
        }
    }

    /// One step of the run; a watch sees the mark that it makes, if it makes one.
    pub fn step<W: Watch>(&mut self, graph: &Graph, watch: &mut W) -> Result<Flow, AllocError>
        requires { IsFit graph.now self.old }
        ensures { IfOk result (λ flow. Steps W.saw graph.now flow self.old self.new watch.old watch.new) }
    {
        let Some(code) = code_at(graph, self.call.code) else {
            return Ok(Flow::Over(End::Stopped));
        };
        let Some(node) = node_at(code, self.call.place) else {
            return Ok(Flow::Over(End::Stopped));
        };
        self.show(graph, code, node, watch)
    }

    /// Steps until the run is over; a watch sees each mark that is made.
    pub fn finish<W: Watch>(&mut self, graph: &Graph, watch: &mut W) -> Result<End, AllocError>
        requires { IsReady graph.now self.old }
        ensures { IfOk result (λ end. Finishes W.saw graph.now end self.old self.new watch.old watch.new) }
    {
        runs_are_over();
        loop {
            match self.step(graph, watch)? {
                Flow::Goes => {}
                Flow::Over(end) => return Ok(end),
            }
        }
    }
}
