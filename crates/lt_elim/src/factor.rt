// The factor of a variable.
ghost use Rattle.std.specs.Prelude.{◌≡◌};
ghost use Rattle.lt_elim.specs.Progress.{found_factor};

/// The factor of the variable, 0 where it does not stand among the terms.
pub(crate) fn factor_of(variable: u32, terms: &[(u32, i128)]) -> i128
    ensures { result ≡ found_factor variable terms.now }
{
    'terms: for (x, factor) in terms {
        if *x == variable {
            return *factor;
        }
    }
    0
}
