//! Maps that keep what first has a name.

ghost use Rattle.std.specs.Prelude.{◌≡◌, ℕ, List, None, Some, OnOk, if◌then◌else◌};
ghost use Rattle.std.specs.Str.{bytes_eq};
ghost use Rattle.lt_tree.specs.Typing.Entities.{or_else};
ghost use Rattle.lt_input_names.specs.Found.{found_in};

use std::alloc::AllocError;
use std::collections::HashMap;

/// A value for a name, unless there is one.
pub fn put_first<'p, V: Copy + Drop>(
    map: &mut HashMap<&'p [u8], V>,
    name: &'p [u8],
    value: V,
) -> Result<(), AllocError>
    ensures { OnOk result ((w : List ℕ) → found_in map.new w ≡ or_else (found_in map.old w) (if bytes_eq name.now w then Some value else None)) }
{
    if map.contains_key(name) {
        return Ok(());
    }
    map.insert(name, value)?;
    Ok(())
}
