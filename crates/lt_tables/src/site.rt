//! What is known of a function where its code is made.
mod variables;

ghost use Rattle.std.specs.Prelude.{◌≡◌, ℕ, length};
ghost use Rattle.std.specs.Ordering.{nat_cmp};
ghost use Rattle.std.specs.BTreeMap.{get};
ghost use Rattle.lt_tree.specs.Typing.TypeRows.{types_of_rows};
ghost use Rattle.lt_tree.specs.Typing.EntityView.{function_of};
ghost use Rattle.lt_meaning.specs.Runs.{locals_of};
ghost use Rattle.lt_tables.specs.Lookups.{parameter_number, local_number};

use crate::tables::Tables;
use lt_tree::typed::Function;
use std::collections::BTreeMap;

/// A function of a program, with the places of its objects.
#[derive(Drop)]
pub struct Site<'t> {
    pub tables: &'t Tables<'t>,
    pub function: &'t Function,
    parameters: BTreeMap<u32, u32>,
    locals: BTreeMap<u32, u32>,
    /// How many objects its statements begin.
    count: u32,
    ghost parameters_hold: { (n : ℕ) → get nat_cmp parameters n ≡ parameter_number (function_of (types_of_rows tables.now.program.now.table.items) function.now) n },
    ghost locals_hold: { (n : ℕ) → get nat_cmp locals n ≡ local_number (function_of (types_of_rows tables.now.program.now.table.items) function.now) n },
    ghost count_holds: { count ≡ length (locals_of (function_of (types_of_rows tables.now.program.now.table.items) function.now).body) },
}
