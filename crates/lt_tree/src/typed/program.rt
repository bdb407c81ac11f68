ghost use Rattle.std.specs.Prelude.{length};
ghost use Rattle.lt_tree.specs.Typing.TypeRows.{types_of_rows};
ghost use Rattle.lt_tree.specs.Typing.TypeIds.{ids_among, AreBelow, AreBelow-prop, AreMadeOfRowsBefore, AreMadeOfRowsBefore-prop};
ghost use Rattle.lt_tree.specs.Typing.MemoryRanges.{ReferInRange, ReferInRange-prop};

use crate::typed::entity::{Declared, Fact, Frame, Function, LabelInfo, Object, StructType};
use crate::typed::types::{TypeId, TypeRow};
use crate::unit::Unit;
use lt_model::DataModel;

/// A typed program, with the unit of which it is. What stands in it refers only to what is there: to its objects, structs, functions, labels and
/// types.
#[derive(Drop)]
pub struct Program<'u> {
    pub unit: &'u Unit,
    pub model: DataModel,
    pub structs: Vec<StructType>,
    /// In the order in which the text first declares them, string literals among them.
    pub objects: Vec<Object>,
    /// The functions that are declared, with or without a body, in the order of their first declarations.
    pub declared: Vec<Declared>,
    /// The functions with bodies, in the order of these.
    pub functions: Vec<Function>,
    /// The names and tags of file scope.
    pub file: Frame,
    /// The types without qualifiers, each once.
    pub types: Vec<TypeId>,
    /// In the order of the text.
    pub labels: Vec<LabelInfo>,
    /// What is known of each expression, in the order in which they end.
    pub facts: Vec<Fact>,
    /// The table in which each type of the program has a row; the rows of the types of which a type is made stand before its
    /// own.
    pub table: Vec<TypeRow>,
    pub ghost in_range: { ReferInRange (types_of_rows table.items) structs.items objects.items declared.items functions.items file types.items labels.items facts.items } by { ReferInRange-prop (types_of_rows table.items) structs.items objects.items declared.items functions.items file types.items labels.items facts.items },
    pub ghost has_rows: { AreBelow (length table.items) (ids_among structs.items objects.items declared.items functions.items file types.items facts.items) } by { AreBelow-prop (length table.items) (ids_among structs.items objects.items declared.items functions.items file types.items facts.items) },
    pub ghost rows_before: { AreMadeOfRowsBefore table.items } by { AreMadeOfRowsBefore-prop table.items },
}
