// The predicates of objectives are typed where they stand: `specs/Laws.antt` says when.
#![tactic(auto)]

mod laws;

pub use laws::{
    decisions_give_predicates, domains_give_predicates, labels_of_objectives_are_new,
    marked_expressions_have_predicates, marked_expressions_keep_their_types,
    mutants_give_predicates, objectives_have_predicates,
};
