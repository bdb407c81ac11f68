//! The arms of switches.

ghost use Rattle.std.specs.Prelude.{◌≡◌};
ghost use Rattle.lt_ir.specs.Tables.{arm_of, IsAscending};

use lt_ir::{Arm, switches_are_tables};

/// The node that follows at a number, where the values of a table ascend; it is looked for by halving.
pub fn follow(table: &[Arm], default: u32, z: i128) -> u32
    requires { IsAscending table.now }
    ensures { result ≡ arm_of table.now default z }
{
    switches_are_tables();
    match table.binary_search_by_key(&z, |arm| arm.value) {
        Ok(k) => table[k].next,
        Err(_) => default,
    }
}
