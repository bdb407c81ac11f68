// Commas, C11 6.5.17.

ghost use Rattle.std.specs.Prelude.{◌≡◌, IfOk};
ghost use Rattle.lt_tree.specs.Typing.TypeRows.{type_in};
ghost use Rattle.lt_tree.specs.Typing.ValueView.{value_of};
ghost use Rattle.lt_tree.specs.Typing.TypedTree as e;
ghost use Rattle.lt_tree.specs.Typing.BinaryOperations as binary;
ghost use Rattle.lt_table.specs.TableRows.{Stays};
ghost use Rattle.lt_table.specs.TypesValue.{Widens};
ghost use Rattle.lt_env.specs.Views.{all_typed};

use lt_env::Typed;
use lt_env::values::value_in;
use lt_table::Types;
use lt_tree::typed::makes::value::comma;
use lt_tree::typed::{TypeId, Value};
use std::alloc::AllocError;

/// `x, y, ..` of the last one's type; of none, of this one.
pub(super) fn comma_of(
    types: &mut Types,
    none: TypeId,
    xs: Vec<Box<Typed>>,
) -> Result<Box<Value>, AllocError>
    ensures widens { Widens types.old types.new }
    ensures made { IfOk result (λ v. Stays types.new.rows (λ longer. value_of longer v.value ≡ e.Comma (binary.last_of (type_in longer none) (all_typed longer xs.items)) (binary.values_of (all_typed longer xs.items)))) }
{
    let alloc = types.alloc();
    let mut last = none;
    let mut values = Vec::new(alloc);
    for x in xs {
        last = x.own_type();
        let value = value_in(types, x)?;
        values.push(Box::into_inner(value))?;
    }
    let all = comma(alloc, last, values)?;
    Ok(all)
}
