//! The lines `stub`.

ghost use Rattle.std.specs.Prelude.{◌≡◌, IfOk};
ghost use Rattle.lt_entry.specs.LineViews.{stub_view};
ghost use Rattle.lt_input_names.specs.Views.{AreNames, scope_of};
ghost use Rattle.lt_spec_reader.specs.Said.{IsRanged};

use lt_entry::StubLine;
use lt_input_names::Names;
use lt_input_wants::is_range;
use std::alloc::AllocError;
use std::collections::HashMap;

/// What lines say of functions without a body, by their names.
pub type Ranges<'p> = HashMap<&'p [u8], StubLine<'p>>;

/// Whether the line fits; if it does, what it says is put to what others say.
pub fn stub<'p>(
    names: &Names<'p>,
    ranges: &mut Ranges<'p>,
    line: &StubLine<'p>,
) -> Result<bool, AllocError>
    requires { AreNames names.now }
    ensures { IfOk result (IsRanged (scope_of names.now) (stub_view line.now) ranges.old ranges.new) }
{
    let fits = is_range(names.model(), line.low, line.high, names.stub(line.name));
    let may_stand = fits & !ranges.contains_key(line.name);
    if !may_stand {
        return Ok(false);
    }
    ranges.insert(line.name, *line)?;
    Ok(true)
}
