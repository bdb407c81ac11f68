ghost use Rattle.lt_value.specs.Progression.{IsCanonical};

/// The whole numbers from `lo` to `hi` that leave `rest` by `step`. The ends are members, and each member is a value of
/// some integer type of C: from -2^63 to 2^64 - 1. One number has step 0 and rest 0, so no set has two forms.
#[derive(Clone, Copy, PartialEq, Eq, Debug)]
pub struct Num {
    pub lo: i128,
    pub hi: i128,
    pub step: u128,
    pub rest: u128,
    ghost canonical: { IsCanonical lo hi step rest },
}
