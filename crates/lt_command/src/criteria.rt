//! Lists of criteria by their names.

ghost use Rattle.std.specs.Prelude.{◌≡◌, option_map};
ghost use Rattle.lt_command.specs.Plan.{criteria_of, criterion_of, with_name};

use bitflags::Flags;
use lt_objectives::{Criteria, Criterion};

// The criteria that labels alone stand for.
const OF_LABELS: [Criterion; 10] = [
    Criterion::Function,
    Criterion::InputDomain,
    Criterion::Decision,
    Criterion::Condition,
    Criterion::MultipleCondition,
    Criterion::GeneralActiveClause,
    Criterion::AbsoluteValue,
    Criterion::ArithmeticOperator,
    Criterion::LogicalConnector,
    Criterion::RelationalOperator,
];

fn criterion_of(name: &str) -> Option<Criterion>
    ensures { result ≡ criterion_of name.now }
{
    OF_LABELS
        .iter()
        .find(|criterion| criterion.tag() == name)
        .copied()
}

// The set with the criterion of this name too, if there is one and it isn't in the set.
fn with_name(set: Criteria, name: &str) -> Option<Criteria>
    ensures { option_map (λ more. more.0) result ≡ with_name set.0 name.now }
{
    let alone = criterion_of(name)?.alone();
    if set.contains(alone) {
        None
    } else {
        Some(set.union(alone))
    }
}

/// The criteria of the names between commas, if each is one's name and none stands twice.
pub fn criteria_of(list: &str) -> Option<Criteria>
    ensures { option_map (λ set. set.0) result ≡ criteria_of list.now }
{
    let mut set = Criteria::empty();
    for name in list.split(',') {
        set = with_name(set, name)?;
    }
    Some(set)
}
