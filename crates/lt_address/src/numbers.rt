ghost use Rattle.std.specs.Prelude.{◌↔◌, IsTrue};
ghost use Rattle.lt_address.specs.Seeking.{IsAmong, IsJoinNumbers};

use lt_value::{Num, is_below, join};

/// The least set that holds what either does.
pub(crate) fn join_numbers(m: Option<Num>, n: Option<Num>) -> Option<Num>
    ensures { IsJoinNumbers m n result }
{
    match (m, n) {
        (None, n) => n,
        (Some(m), None) => Some(m),
        (Some(m), Some(n)) => Some(join(&m, &n)),
    }
}

/// Whether the second set holds all that the first does.
pub(crate) fn numbers_below(m: Option<Num>, n: Option<Num>) -> bool
    ensures { IsTrue result ↔ IsAmong m n }
{
    match (m, n) {
        (None, _) => true,
        (Some(_), None) => false,
        (Some(m), Some(n)) => is_below(&m, &n),
    }
}
