ghost use Rattle.std.specs.Prelude.{IsTrue};
ghost use Rattle.lt_ir.specs.Edges.{TurnByTicks};
ghost use Rattle.lt_ir.specs.Ranges.{are_in_range};
ghost use Rattle.lt_ir.specs.Tables.{HaveTables};

use crate::code::{Code, LabelInfo, Static};
use lt_model::{DataModel, Name, Sequence};

/// Graph code: a code for each function with a body, the objects that are there from the start, the labels, and the names of the
/// functions without a body that have values. Each number of a node, a register, an object, a label or a function is one that is there,
/// each switch has the table of its arms, and each turn of a loop spends a tick.
#[derive(Drop)]
pub struct Graph {
    pub codes: Sequence<Code>,
    pub statics: Sequence<Static>,
    pub labels: Sequence<LabelInfo>,
    pub stubs: Sequence<Name>,
    pub model: DataModel,
    ghost in_range: { IsTrue (are_in_range codes statics labels stubs) },
    ghost tables: { HaveTables codes },
    ghost turns: { TurnByTicks codes },
}
