ghost use Rattle.std.specs.Prelude.{IfOk};
ghost use Rattle.lt_tree.specs.UnitView.{unit_of};
ghost use Rattle.lt_sites.specs.Sites.{AreSitesOf};

use crate::lister::Lister;
use crate::site::Site;
use lt_tree::Unit;
use std::alloc::{AllocError, Global};

/// The nodes of a unit, in the order of their numbers.
pub fn list_sites<'u>(alloc: Global, unit: &'u Unit) -> Result<Vec<Site<'u>>, AllocError>
    ensures { IfOk result (λ sites. AreSitesOf sites.items (unit_of unit.now)) }
{
    let mut lister = Lister::new(alloc);
    lister.externals(unit.externals.as_slice())?;
    Ok(lister.into_sites())
}
