// Graph code, the state of a run, and what nodes do to it; `specs/Graph.antt` says what a run of a graph is.
#![tactic(auto)]

mod code;
mod graph;
mod laws;
mod node;
mod pure;
mod variable;

pub use code::{Code, LabelInfo, Static};
pub use graph::Graph;
pub use laws::{
    footprints_count_by_membership, registers_begin_blank, runs_are_over_in_one_way,
    stubs_have_places, switches_are_tables,
};
pub use node::{Access, Arm, Given, Movement, Node, Parts};
pub use pure::{How, Pure};
pub use variable::Variable;
