// Where the code of typed programs stands in a graph, as a relation; `specs/Code.antt` and `specs/Bodies.antt` say it.
#![tactic(auto)]

mod laws;

pub use laws::{
    codes_are_worked_out, graphs_run_as_their_programs, graphs_run_in_no_other_way,
    predicates_agree, sizes_are_worked_out,
};
