//! The ranges of functions without a body.

ghost use Rattle.std.specs.Prelude.{◌≡◌, IfOk};
ghost use Rattle.lt_input_wants.specs.Stubs.{whole_range};

use lt_model::{DataModel, Name, Scalar, StubRange, greatest, least};
use std::alloc::{AllocError, Global};

/// The range of the function of this name of which no line says anything: all values of its type.
pub fn whole_range(
    alloc: Global,
    model: DataModel,
    name: &[u8],
    ty: Scalar,
) -> Result<StubRange, AllocError>
    ensures { IfOk result (λ range. range ≡ whole_range model (record { name = name.now; type = ty })) }
{
    Ok(StubRange {
        name: Name::new(alloc, name)?,
        lo: least(model, ty),
        hi: greatest(model, ty),
    })
}
