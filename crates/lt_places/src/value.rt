ghost use Rattle.std.specs.Prelude.{◌≡◌, map, IfOk};
ghost use Rattle.lt_tree.specs.Tree as c;
ghost use Rattle.lt_objectives.specs.Places as places;
ghost use Rattle.lt_objectives.specs.Places.{is_value_position};
ghost use Rattle.lt_sites.specs.Sites.{AreSitesOf, node_of};
ghost use Rattle.lt_places.specs.Operands.{has_place_operand};

use crate::walk::core_number;
use lt_sites::{NodeRef, Site};
use lt_tree::{Expr, UnaryOp};
use std::alloc::{AllocError, Global};

/// Whether an expression stands for its value at each node.
pub fn value_positions(alloc: Global, sites: &[Site<'_>]) -> Result<Vec<bool>, AllocError>
    ensures { (unit : c.Unit) → AreSitesOf sites.now unit → IfOk result (λ values. values.items ≡ map (λ site. is_value_position unit site.number) (places.sites unit)) }
{
    let mut values = vec![in alloc; true; sites.len()]?;
    'sites: for (k, site) in sites.iter().enumerate() {
        if has_place_operand(site) {
            let place = core_number(sites, k + 1);
            if let Some(value) = values.get_mut(place) {
                *value = false;
            }
        }
    }
    Ok(values)
}

/// Whether the node is an operator whose first operand stands for a place.
fn has_place_operand(site: &Site<'_>) -> bool
    ensures { result ≡ has_place_operand (node_of site.now.node) }
{
    let NodeRef::Expression(e) = site.node else {
        return false;
    };
    matches!(
        e,
        Expr::Unary(UnaryOp::AddressOf, _)
            | Expr::PostInc(_)
            | Expr::PostDec(_)
            | Expr::PreInc(_)
            | Expr::PreDec(_)
            | Expr::Assign(..)
            | Expr::Member(..)
    )
}
