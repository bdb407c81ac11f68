ghost use Rattle.std.specs.Prelude.{◌≡◌};
ghost use Rattle.std.specs.Int.{int_min, int_max};

/// The least and the greatest of some numbers.
#[derive(Clone, Copy)]
pub(crate) struct Span {
    pub(crate) lo: i128,
    pub(crate) hi: i128,
}

/// The span of four numbers.
pub(crate) fn span_of(a: i128, b: i128, c: i128, d: i128) -> Span
    ensures lo { result.lo ≡ int_min (int_min a b) (int_min c d) }
    ensures hi { result.hi ≡ int_max (int_max a b) (int_max c d) }
{
    Span {
        lo: a.min(b).min(c.min(d)),
        hi: a.max(b).max(c.max(d)),
    }
}

/// The least span that holds two.
pub(crate) fn joined(s: Span, t: Span) -> Span
    ensures lo { result.lo ≡ int_min s.lo t.lo }
    ensures hi { result.hi ≡ int_max s.hi t.hi }
{
    Span {
        lo: s.lo.min(t.lo),
        hi: s.hi.max(t.hi),
    }
}
