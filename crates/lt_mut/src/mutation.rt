ghost use Rattle.std.specs.Prelude.{◌≡◌};
ghost use Rattle.lt_mut.specs.Mutations.{criterion_of};

use lt_objectives::Criterion;

/// What is changed in an expression.
#[derive(Clone, Copy)]
pub enum Mutation {
    AbsoluteValue,
    ArithmeticOperator,
    LogicalConnector,
    RelationalOperator,
}

/// In the order in which their criteria are applied.
pub const MUTATIONS: [Mutation; 4] = [
    Mutation::AbsoluteValue,
    Mutation::ArithmeticOperator,
    Mutation::LogicalConnector,
    Mutation::RelationalOperator,
];

impl Mutation {
    pub fn criterion(self) -> Criterion
        ensures { result ≡ criterion_of self }
    {
        match self {
            Mutation::AbsoluteValue => Criterion::AbsoluteValue,
            Mutation::ArithmeticOperator => Criterion::ArithmeticOperator,
            Mutation::LogicalConnector => Criterion::LogicalConnector,
            Mutation::RelationalOperator => Criterion::RelationalOperator,
        }
    }
}
