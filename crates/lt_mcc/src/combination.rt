ghost use Rattle.std.specs.Prelude.{◌≡◌};
ghost use Rattle.lt_mcc.specs.Combinations.{criterion_of};

use lt_objectives::Criterion;

/// Which combinations of the clauses of a decision are asked for.
#[derive(Clone, Copy)]
pub enum Combination {
    /// Each clause is true or false.
    MultipleCondition,
    /// Each clause is true, and false, while it determines the decision.
    GeneralActiveClause,
}

/// In the order in which their criteria are applied.
pub const COMBINATIONS: [Combination; 2] = [
    Combination::MultipleCondition,
    Combination::GeneralActiveClause,
];

impl Combination {
    pub fn criterion(self) -> Criterion
        ensures { result ≡ criterion_of self }
    {
        match self {
            Combination::MultipleCondition => Criterion::MultipleCondition,
            Combination::GeneralActiveClause => Criterion::GeneralActiveClause,
        }
    }
}
