// Greatest common divisors.
ghost use Rattle.std.specs.Prelude.{◌≡◌};
ghost use Rattle.lt_elim.specs.Divisor.{gcd_of, content};

/// The greatest common divisor of two numbers, by Euclid.
pub(crate) fn gcd(a: u128, b: u128) -> u128
    ensures { result ≡ gcd_of a b }
{
    let mut x = a;
    let mut y = b;
    'steps: while y != 0 {
        let rest = x % y;
        x = y;
        y = rest;
    }
    x
}

/// The greatest common divisor of the factors, 0 where there are none.
pub(crate) fn content(terms: &[(u32, i128)]) -> u128
    ensures { result ≡ content terms.now }
{
    let mut divisor = 0;
    let mut i = terms.len();
    'terms: while i > 0 {
        i -= 1;
        divisor = gcd(terms[i].1.unsigned_abs(), divisor);
    }
    divisor
}
