//! The tables of a program.
mod lookups;
mod shapes;
mod statics;

ghost use Rattle.std.specs.Prelude.{◌≡◌, ℕ, List};
ghost use Rattle.std.specs.Ordering.{nat_cmp};
ghost use Rattle.std.specs.BTreeMap.{get};
ghost use Rattle.lt_tree.specs.Typing.TypeRows.{types_of_rows};
ghost use Rattle.lt_tree.specs.Typing.EntityView.{structs_of};
ghost use Rattle.lt_tree.specs.Typing.ProgramView.{program_of};
ghost use Rattle.lt_tables.specs.Layouts.{AreLayoutsOf};
ghost use Rattle.lt_tables.specs.Lookups.{HaveFacts, name_among, function_number, label_number, place_in, static_number};

use crate::facts::TypeFacts;
use crate::layouts::Layouts;
use indexmap::IndexMap;
pub use lookups::stops;
use lt_model::Name;
use lt_tree::typed::Program;
use std::collections::BTreeMap;

/// What is looked up in a program.
#[derive(Drop)]
pub struct Tables<'p> {
    pub program: &'p Program<'p>,
    /// The names of the functions without a body that have values.
    pub stubs: Vec<Name>,
    /// By the places of types.
    types: Vec<TypeFacts>,
    /// Of an id that has no place.
    other: TypeFacts,
    labels: BTreeMap<u32, u32>,
    functions: IndexMap<Vec<u8>, u32>,
    stub_places: IndexMap<Vec<u8>, u32>,
    /// The objects that are there from the start, by their numbers.
    statics: BTreeMap<u32, u32>,
    layouts: Layouts,
    ghost types_hold: { HaveFacts (program_of program.now) (types_of_rows program.now.table.items) types.items other },
    ghost labels_hold: { (id : ℕ) → get nat_cmp labels id ≡ label_number (program_of program.now) id },
    ghost functions_hold: { (name : List ℕ) → place_in functions name ≡ function_number (program_of program.now) name },
    ghost stubs_hold: { (name : List ℕ) → place_in stub_places name ≡ name_among 0 name stubs.items },
    ghost statics_hold: { (n : ℕ) → get nat_cmp statics n ≡ static_number (program_of program.now) n },
    ghost layouts_hold: { AreLayoutsOf program.now.model (structs_of (types_of_rows program.now.table.items) program.now.structs.items) (types_of_rows program.now.table.items) layouts },
}
