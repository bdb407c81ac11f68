// Fractions.
ghost use Rattle.std.specs.Prelude.{◌<◌, ◌^◌};

/// A numerator over a positive denominator.
#[derive(Clone, Copy)]
pub(crate) struct Fraction {
    pub(crate) over: i128,
    pub(crate) under: u128,
    ghost positive: { 0 < under },
    ghost fits: { under < 2 ^ 127 },
}
