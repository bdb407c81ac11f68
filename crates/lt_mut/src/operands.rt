ghost use Rattle.std.specs.Prelude.{◌≡◌, ◌<◌, ◌+◌, ◌&&◌, length, Some, slice_get};
ghost use Rattle.lt_tree.specs.Tree as c;
ghost use Rattle.lt_tree.specs.View.{expression_of};
ghost use Rattle.lt_tree.specs.Nodes.{nodes, an_expression, in_expression};
ghost use Rattle.lt_tree.specs.Typing.Types.{is_integer};
ghost use Rattle.lt_tree.specs.Typing.Programs.{Program};
ghost use Rattle.lt_objectives.specs.Mutants.{is_signed_integer};
ghost use Rattle.lt_objectives.specs.Objectives.{left_type, right_type};
ghost use Rattle.lt_objectives.specs.Places.{type_at};
ghost use Rattle.lt_facts.specs.Families.{is_integer_family, is_signed_family};
ghost use Rattle.lt_sites.specs.Sites.{AreSitesOf};
ghost use Rattle.lt_survey.specs.Survey.{IsSurvey};
ghost use Rattle.lt_mut.specs.Operands.{left_number, right_number, family_at};

use lt_facts::Family;
use lt_places::value_part_number;
use lt_sites::Site;
use lt_survey::Survey;
use lt_tree::Expr;

/// Whether the expression of this number has a signed integer type.
pub fn is_signed(survey: &Survey<'_>, k: usize) -> bool
    ensures { (unit : c.Unit) (program : Program) (e : c.Expression) → IsSurvey unit program survey.now → slice_get (nodes unit) k ≡ Some (an_expression e)
        → is_signed_integer program.model (type_at unit program k) ≡ result }
{
    is_signed_family(family_at(survey, k))
}

/// Whether the operands of the expression of this number have integer types; of another than a binary operator, whether it has one itself.
pub fn are_integers(survey: &Survey<'_>, k: usize, e: &Expr) -> bool
    requires { k < length survey.now.sites.items }
    ensures { (unit : c.Unit) (program : Program) → IsSurvey unit program survey.now → slice_get (nodes unit) k ≡ Some (an_expression (expression_of e.now))
        → (is_integer (left_type unit program k (expression_of e.now)) && is_integer (right_type unit program k (expression_of e.now))) ≡ result }
{
    let (left, right) = operand_numbers(&survey.sites, k, e);
    is_integer_family(family_at(survey, left)) && is_integer_family(family_at(survey, right))
}

fn is_signed_family(family: Family) -> bool
    ensures { result ≡ is_signed_family family }
{
    matches!(family, Family::Signed)
}

fn is_integer_family(family: Family) -> bool
    ensures { result ≡ is_integer_family family }
{
    matches!(family, Family::Signed | Family::Unsigned)
}

fn family_at(survey: &Survey<'_>, k: usize) -> Family
    ensures { result ≡ family_at survey.now.families.items k }
{
    match survey.families.get(k) {
        None => Family::Other,
        Some(family) => *family,
    }
}

/// The numbers of the parts that have the values of the operands.
fn operand_numbers(sites: &[Site<'_>], k: usize, e: &Expr) -> (usize, usize)
    requires { k < length sites.now }
    ensures { (unit : c.Unit) → AreSitesOf sites.now unit → slice_get (nodes unit) k ≡ Some (an_expression (expression_of e.now))
        → (result.0 ≡ left_number k (expression_of e.now)) × (result.1 ≡ right_number k (expression_of e.now)) }
{
    let Expr::Binary(..) = e else {
        return (k, k);
    };
    let right = behind(sites, k + 1);
    (
        value_part_number(sites, k + 1),
        value_part_number(sites, right),
    )
}

/// The number behind the part of an expression of this number.
fn behind(sites: &[Site<'_>], k: usize) -> usize
    ensures { (unit : c.Unit) (e : c.Expression) → AreSitesOf sites.now unit → slice_get (nodes unit) k ≡ Some (an_expression e) → result ≡ k + length (in_expression e) }
{
    match sites.get(k) {
        None => k,
        Some(site) => k + site.size.min(sites.len() - k),
    }
}
