ghost use Rattle.std.specs.Prelude.{◌≡◌, ◌+ℤ◌, ◌*ℤ◌};
ghost use Rattle.lt_model.specs.Whole.{fitting};

/// A sum, if it fits 128 signed bits.
pub fn checked_sum(a: i128, b: i128) -> Option<i128>
    ensures { result ≡ fitting (a +ℤ b) }
{
    a.checked_add(b)
}

/// A product, if it fits 128 signed bits.
pub fn checked_product(a: i128, b: i128) -> Option<i128>
    ensures { result ≡ fitting (a *ℤ b) }
{
    a.checked_mul(b)
}
