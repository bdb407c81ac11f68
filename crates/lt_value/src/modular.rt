ghost use Rattle.std.specs.Prelude.{◌≡◌, ℕ, ◌+◌, ◌*◌, ◌%◌, ◌^◌, ◌<◌, ◌≤◌, true, ◌↔◌, IfSome, IfNone};
ghost use Rattle.std.specs.Int.{◌∣◌, IsGcd};
ghost use Rattle.lt_value.specs.Offsets.{IsCommon, IsFirstCommon, IsCommonStep, IsGreatestMultiple, IsInverse};

/// Factors are split at 33 bits, so that no part of a product passes 128 bits.
const HALF: u128 = 0x2_0000_0000;

/// The greatest common divisor of two numbers, by Euclid.
pub(crate) fn gcd(a: u128, b: u128) -> u128
    ensures { IsGcd a b result }
{
    let mut x = a;
    let mut y = b;
    'steps: while y != 0 {
        let rest = x % y;
        x = y;
        y = rest;
    }
    x
}

/// A greatest common divisor, and a factor that turns the first number into it.
#[derive(Clone, Copy)]
pub(crate) struct Inverse {
    pub(crate) gcd: u128,
    pub(crate) factor: u128,
}

/// A product modulo m, of numbers whose product may pass 128 bits.
fn mul_mod(x: u128, y: u128, m: u128) -> u128
    requires x { x < 2 ^ 66 }
    requires y { y < 2 ^ 66 }
    requires m_below { m < 2 ^ 66 }
    requires m_above { 0 < m }
    ensures value { result ≡ (x * y) % m }
    ensures below { result < m }
{
    let high = x * (y / HALF) % m;
    (high * HALF + x * (y % HALF)) % m
}

/// The greatest common divisor of a and m, as a multiple of a modulo m: Euclid with one cofactor.
pub(crate) fn inverse_of(a: u128, m: u128) -> Inverse
    requires a { a < 2 ^ 66 }
    requires m_below { m < 2 ^ 66 }
    requires m_above { 0 < m }
    ensures { IsInverse a m result.gcd result.factor }
{
    let mut x = a;
    let mut u = 1 % m;
    let mut y = m;
    let mut v = 0;
    'steps: while y != 0 {
        let rest = x % y;
        let next = (u + m - mul_mod(x / y, v, m)) % m;
        x = y;
        u = v;
        y = rest;
        v = next;
    }
    Inverse { gcd: x, factor: u }
}

/// Zero divides zero alone.
pub(crate) fn divides(step: u128, n: u128) -> bool
    ensures { result ≡ true ↔ (step ∣ n) }
{
    if step == 0 { n == 0 } else { n % step == 0 }
}

/// The least offset within the room that is a multiple of s, and one of t after the gap.
pub(crate) fn first_common(s: u128, t: u128, gap: u128, room: u128) -> Option<u128>
    requires s { s < 2 ^ 66 }
    requires t { t < 2 ^ 66 }
    ensures some { IfSome result (IsFirstCommon s t gap room) }
    ensures none { IfNone result ((x : ℕ) → IsCommon s t gap room x → ⊥) }
{
    if s == 0 || t == 0 {
        return if divides(t, gap) { Some(0) } else { None };
    }
    let inverse = inverse_of(s, t);
    let need = (t - gap % t) % t;
    if need % inverse.gcd != 0 {
        return None;
    }
    let steps = mul_mod(need / inverse.gcd, inverse.factor, t / inverse.gcd);
    if steps > room / s {
        None
    } else {
        Some(s * steps)
    }
}

/// The step of the multiples of s and t within the room, 0 where 0 is the only one.
pub(crate) fn common_step(s: u128, t: u128, room: u128) -> u128
    requires s { s < 2 ^ 66 }
    requires t { t < 2 ^ 66 }
    ensures { IsCommonStep s t room result }
{
    if s == 0 || t == 0 {
        return 0;
    }
    let turns = t / inverse_of(s, t).gcd;
    if turns > room / s { 0 } else { s * turns }
}

/// The greatest multiple of a step within the room.
pub(crate) fn greatest_multiple(step: u128, room: u128) -> u128
    ensures { IsGreatestMultiple step room result }
{
    if step == 0 { 0 } else { room / step * step }
}
