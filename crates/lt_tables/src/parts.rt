//! What the types of a program are made of, in a data model: their extents and those of structs follow from it.
mod layouts;
mod order;
mod structs;

ghost use Rattle.lt_tree.specs.Typing.TypeRows.{types_of_rows};
ghost use Rattle.lt_tables.specs.TypeParts.{HaveParts};

use crate::type_parts::TypeParts;
use lt_model::DataModel;
use lt_tree::typed::TypeRow;

/// What the types of these rows are made of, in order.
#[derive(Drop)]
pub struct Parts<'r> {
    model: DataModel,
    rows: &'r [TypeRow],
    list: Vec<TypeParts>,
    ghost hold: { HaveParts model (types_of_rows rows.now) list.items },
}
