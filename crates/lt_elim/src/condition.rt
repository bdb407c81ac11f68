// Which systems are decided.
ghost use Rattle.std.specs.Prelude.{◌≡◌, ◌≤◌, ◌^◌, ◌↔◌, IsTrue};
ghost use Rattle.lt_elim.specs.Condition.{greatest_factor, greatest, CanDecide};

use crate::system::variables;
use lt_lin::{Row, System};

/// Whether the number of variables plus one, times the greatest size of a number, is at most 2^125.
pub fn can_decide(system: &System) -> bool
    ensures { IsTrue result ↔ CanDecide system.now.rows.items }
{
    let rows = system.rows.as_slice();
    let count = u128::from(variables(rows) + 1);
    match count.checked_mul(greatest(rows)) {
        Some(product) => product <= 1 << 125,
        None => false,
    }
}

// The greatest size of a number.
fn greatest(rows: &[Row]) -> u128
    ensures size { result ≡ greatest rows.now }
    ensures bound { result ≤ 2 ^ 127 }
{
    let mut size = 0;
    let mut i = rows.len();
    'rows: while i > 0 {
        i -= 1;
        let constant = rows[i].constant.unsigned_abs();
        let factor = greatest_factor(rows[i].terms.as_slice());
        size = constant.max(factor).max(size);
    }
    size
}

fn greatest_factor(terms: &[(u32, i128)]) -> u128
    ensures size { result ≡ greatest_factor terms.now }
    ensures bound { result ≤ 2 ^ 127 }
{
    let mut size = 0;
    let mut i = terms.len();
    'terms: while i > 0 {
        i -= 1;
        size = terms[i].1.unsigned_abs().max(size);
    }
    size
}
