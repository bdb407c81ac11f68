ghost use Rattle.std.specs.Prelude.{◌≡◌};
ghost use Rattle.lt_meaning.specs.Expressions as meaning;
ghost use Rattle.lt_emit.specs.Fate.{fate_of, makes_conversion, part_fate};

/// What becomes of an expression's value.
#[derive(Clone, Copy)]
pub enum Fate {
    Wanted,
    /// Wanted, but its outermost conversion is made by whoever wants it.
    Unconverted,
    /// Left of a comma, and in the head of a `for`.
    Dropped,
    /// In a branch of a `?:` whose value is dropped.
    DroppedBranch,
    Untaken,
}

impl Fate {
    /// Of the operand of a conversion.
    pub fn inside(self) -> Fate
        ensures { fate_of result ≡ meaning.inside (fate_of self) }
    {
        match self {
            Fate::DroppedBranch => Fate::Dropped,
            _ => Fate::Wanted,
        }
    }

    /// Of a branch of `?:`.
    pub fn of_branch(self) -> Fate
        ensures { fate_of result ≡ meaning.of_branch (fate_of self) }
    {
        match self {
            Fate::Wanted | Fate::Unconverted => Fate::Wanted,
            _ => Fate::DroppedBranch,
        }
    }

    /// Of the last part of a comma expression, and of what stands behind marks.
    pub fn of_last(self) -> Fate
        ensures { fate_of result ≡ meaning.of_last (fate_of self) }
    {
        match self {
            Fate::Wanted | Fate::Unconverted => Fate::Wanted,
            _ => Fate::Dropped,
        }
    }

    /// Of a part of a comma expression.
    pub fn of_part(self, is_last: bool) -> Fate
        ensures { fate_of result ≡ part_fate (fate_of self) is_last }
    {
        if is_last { self } else { Fate::Dropped }
    }

    /// Whether the value of a call is taken.
    pub fn takes(self) -> bool
        ensures { result ≡ meaning.takes (fate_of self) }
    {
        !matches!(self, Fate::Untaken)
    }

    /// Whether the outermost conversion is made where the expression stands.
    pub fn converts(self) -> bool
        ensures { result ≡ makes_conversion (fate_of self) }
    {
        !matches!(self, Fate::Unconverted | Fate::DroppedBranch)
    }
}
