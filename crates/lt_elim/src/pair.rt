// By which numbers two rows are multiplied.
ghost use Rattle.std.specs.Prelude.{◌≡◌};
ghost use Rattle.lt_elim.specs.Combination.{multipliers};
ghost use Rattle.lt_elim.specs.Summing.{CanCombine};

use crate::combination::multipliers_of;
use crate::factor::factor_of;
use crate::log::Pair;
use crate::numbered::Numbered;

/// The rows' numbers, with the multipliers by which their sum has no such variable.
pub(crate) fn pair_of(limited: bool, variable: u32, raising: &Numbered, lowering: &Numbered) -> Pair
    requires { CanCombine limited variable raising.now.row lowering.now.row }
    ensures raising { result.raising ≡ raising.now.number }
    ensures lowering { result.lowering ≡ lowering.now.number }
    ensures multipliers { record { of_raising = result.of_raising; of_lowering = result.of_lowering } ≡ multipliers variable raising.now.row lowering.now.row }
{
    let up = factor_of(variable, raising.row.terms.as_slice()).unsigned_abs();
    let down = factor_of(variable, lowering.row.terms.as_slice()).unsigned_abs();
    let by = multipliers_of(up, down);
    Pair {
        raising: raising.number,
        of_raising: by.of_raising,
        lowering: lowering.number,
        of_lowering: by.of_lowering,
    }
}
