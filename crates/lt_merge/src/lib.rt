// Merges tables of coverage files; `specs/Coverage/Merge.antt` of `lt_cover` says what a merge is.
#![tactic(auto)]

mod agree;
mod combine;
mod laws;
mod outcomes;
mod union;

pub use combine::merge;
pub use laws::{merge_is_a_table, merge_is_associative, merge_is_commutative, merge_is_idempotent};
