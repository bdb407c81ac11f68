ghost use Rattle.std.specs.Prelude.{⊤, ◌≡◌, [], ◌∷◌, codes};
ghost use Rattle.lt_objectives.specs.Criteria.{bit_of, tag_of};

use bitflags::{Flag, Flags, bitflag_items};

/// A coverage criterion (Ammann and Offutt; Bardin, Kosmatov and Cheynier, ICST 2014), in the order in which criteria are applied.
#[derive(Clone, Copy, PartialEq, Eq, Debug)]
pub enum Criterion {
    /// Function coverage.
    Function,
    /// Input domain coverage.
    InputDomain,
    /// Decision coverage.
    Decision,
    /// Condition coverage.
    Condition,
    /// Multiple condition coverage.
    MultipleCondition,
    /// General active clause coverage.
    GeneralActiveClause,
    /// Correlated active clause coverage.
    CorrelatedActiveClause,
    /// Restricted active clause coverage.
    RestrictedActiveClause,
    /// All uses.
    AllUses,
    /// Mutants: absolute values.
    AbsoluteValue,
    /// Mutants: arithmetic operators.
    ArithmeticOperator,
    /// Mutants: logical connectors.
    LogicalConnector,
    /// Mutants: relations.
    RelationalOperator,
}

impl Criterion {
    /// The set with this criterion alone.
    pub fn alone(self) -> Criteria
        ensures { result.0 ≡ bit_of self }
    {
        match self {
            Criterion::Function => Criteria::FC,
            Criterion::InputDomain => Criteria::IDC,
            Criterion::Decision => Criteria::DC,
            Criterion::Condition => Criteria::CC,
            Criterion::MultipleCondition => Criteria::MCC,
            Criterion::GeneralActiveClause => Criteria::GACC,
            Criterion::CorrelatedActiveClause => Criteria::CACC,
            Criterion::RestrictedActiveClause => Criteria::RACC,
            Criterion::AllUses => Criteria::AU,
            Criterion::AbsoluteValue => Criteria::ABS,
            Criterion::ArithmeticOperator => Criteria::AOR,
            Criterion::LogicalConnector => Criteria::COR,
            Criterion::RelationalOperator => Criteria::ROR,
        }
    }

    /// Its name, which is the tag of its labels.
    pub fn tag(self) -> &'static str
        ensures { result.now ≡ tag_of self }
    {
        match self {
            Criterion::Function => "FC",
            Criterion::InputDomain => "IDC",
            Criterion::Decision => "DC",
            Criterion::Condition => "CC",
            Criterion::MultipleCondition => "MCC",
            Criterion::GeneralActiveClause => "GACC",
            Criterion::CorrelatedActiveClause => "CACC",
            Criterion::RestrictedActiveClause => "RACC",
            Criterion::AllUses => "AU",
            Criterion::AbsoluteValue => "ABS",
            Criterion::ArithmeticOperator => "AOR",
            Criterion::LogicalConnector => "COR",
            Criterion::RelationalOperator => "ROR",
        }
    }
}

/// A set of criteria.
#[derive(Clone, Copy, PartialEq, Eq, Debug)]
pub struct Criteria(u16);

bitflag_items! {
    impl Criteria: u16 {
        const FC = 1;
        const IDC = 2;
        const DC = 4;
        const CC = 8;
        const MCC = 16;
        const GACC = 32;
        const CACC = 64;
        const RACC = 128;
        const AU = 256;
        const ABS = 512;
        const AOR = 1024;
        const COR = 2048;
        const ROR = 4096;
    }
}

impl Flags for Criteria {
    type Bits = u16;

    ghost exact = { ⊤ };

    ghost table = { (codes "FC", 1) ∷ (codes "IDC", 2) ∷ (codes "DC", 4) ∷ (codes "CC", 8) ∷ (codes "MCC", 16) ∷ (codes "GACC", 32) ∷ (codes "CACC", 64)
        ∷ (codes "RACC", 128) ∷ (codes "AU", 256) ∷ (codes "ABS", 512) ∷ (codes "AOR", 1024) ∷ (codes "COR", 2048) ∷ (codes "ROR", 4096) ∷ [] };

    ghost set_of = { λ p. p.0 };

    fn flags<'a>() -> &'a [Flag<Criteria>] {
        Criteria::FLAGS
    }

    fn bits(&self) -> u16 {
        self.0
    }

    fn from_bits_retain(bits: u16) -> Criteria {
        Criteria(bits)
    }
}
