// The cases of a `switch`, C11 6.8.4.2.

ghost use Rattle.std.specs.Prelude.{◌≡◌, ◌∷◌, [], false, Option, IfOk, OnOk, map};
ghost use Rattle.lt_tree.specs.Tree as c;
ghost use Rattle.lt_tree.specs.View.{expression_of};
ghost use Rattle.lt_tree.specs.UnitView as source;
ghost use Rattle.lt_tree.specs.Typing.StatementView as view;
ghost use Rattle.lt_tree.specs.Typing.StatementTyping as typing;
ghost use Rattle.lt_table.specs.TableRows.{Stays};
ghost use Rattle.lt_env.specs.Going.{Gives, itself};
ghost use Rattle.lt_env.specs.Views.{typed_of};
ghost use Rattle.lt_unit.specs.UnitViews.{around_of, labelled_of};
ghost use Rattle.lt_unit.specs.CaseParts.{case_made, case_walk};

use crate::around::Around;
use crate::seen::Seen;
use crate::statement::in_its_block;
use lt_model::{DataModel, Scalar};
use lt_table::{Types, converted};
use lt_tree::typed::{Case, Constancy, Label as TypedLabel, Rule};
use lt_tree::{Expr, Label, SwitchCase};
use lt_type::{TypeStop, Typed, Walker, constant_expression, is_integer, only_unless};
use std::alloc::AllocError;

/// Goes over the statements of a switch, whose operand has this promoted type.
#[cycle(statements)]
pub fn cases(
    walker: &mut Walker,
    list: &[SwitchCase],
    ty: Option<Scalar>,
    around: Around,
) -> Result<Vec<Case>, TypeStop>
    ensures { Gives (λ types made. view.cases_in types made.items) walker.old walker.new result (λ types. typing.cases (source.cases_in list.now) ty (record { values = []; has_default = false }) (around_of types around)) }
{
    let alloc = walker.types.alloc();
    let mut seen = Seen::new(alloc);
    let mut all = Vec::new(alloc);
    'list: for one in list {
        let made = one_case(walker, one, ty, &mut seen, around)?;
        all.push(made)?;
    }
    Ok(all)
}

// Goes over one statement with its labels.
#[cycle(statements)]
fn one_case(
    walker: &mut Walker,
    one: &SwitchCase,
    ty: Option<Scalar>,
    seen: &mut Seen,
    around: Around,
) -> Result<Case, TypeStop>
    ensures { Gives (λ types made. case_made (map view.label_of made.labels.items) (view.statement_of types made.statement) seen.new) walker.old walker.new result (λ types. case_walk (map source.label_of one.now.labels.items) (source.statement_of one.now.statement) ty seen.old (around_of types around)) }
{
    let all = labels(walker, one.labels.as_slice(), ty, seen)?;
    let made = in_its_block(walker, &one.statement, around)?;
    Ok(Case {
        labels: all,
        statement: Box::into_inner(made),
    })
}

// Goes over the labels of a statement.
fn labels(
    walker: &mut Walker,
    list: &[Label],
    ty: Option<Scalar>,
    seen: &mut Seen,
) -> Result<Vec<TypedLabel>, TypeStop>
    ensures { Gives (λ types made. labelled_of (map view.label_of made.items) seen.new) walker.old walker.new result (λ types. typing.labels (map source.label_of list.now) ty seen.old) }
{
    let mut all = Vec::new(walker.types.alloc());
    'list: for one in list {
        let made = label(walker, one, ty, seen)?;
        all.push(made)?;
    }
    Ok(all)
}

// Goes over a label.
fn label(
    walker: &mut Walker,
    one: &Label,
    ty: Option<Scalar>,
    seen: &mut Seen,
) -> Result<TypedLabel, TypeStop>
    ensures { Gives (λ types made. labelled_of (view.label_of made ∷ []) seen.new) walker.old walker.new result (λ types. typing.labels (source.label_of one.now ∷ []) ty seen.old) }
{
    match one {
        Label::Case(e) => case_label(walker, e, ty, seen),
        Label::Default => default_label(walker, seen),
    }
}

// `default:`
fn default_label(walker: &mut Walker, seen: &mut Seen) -> Result<TypedLabel, TypeStop>
    ensures { (ty : Option Scalar) → Gives (λ types made. labelled_of (view.label_of made ∷ []) seen.new) walker.old walker.new result (λ types. typing.labels (c.Default ∷ []) ty seen.old) }
{
    let node = walker.enter()?;
    let is_first = !seen.has_default();
    let faults = only_unless(walker.types.alloc(), is_first, Rule::BadCase)?;
    walker.settle(node, &faults)?;
    seen.add_default();
    Ok(TypedLabel::Default)
}

// `case e:`
fn case_label(
    walker: &mut Walker,
    e: &Expr,
    ty: Option<Scalar>,
    seen: &mut Seen,
) -> Result<TypedLabel, TypeStop>
    ensures { Gives (λ types made. labelled_of (view.label_of made ∷ []) seen.new) walker.old walker.new result (λ types. typing.labels (c.Case (expression_of e.now) ∷ []) ty seen.old) }
{
    let node = walker.enter()?;
    let x = constant_expression(walker, e)?;
    let z = end_of_case(walker, node, ty, seen, &x)?;
    let made = with_case(seen, z)?;
    Ok(made)
}

// The end of a case: its value is a constant and new.
fn end_of_case(
    walker: &mut Walker,
    node: u32,
    ty: Option<Scalar>,
    seen: &Seen,
    x: &Typed,
) -> Result<Option<i128>, TypeStop>
    ensures { Gives itself walker.old walker.new result (λ types. typing.end_of_case node ty seen.now (typed_of types x.now)) }
{
    let z = case_value(&walker.types, ty, x)?;
    let is_new = is_new_case(seen, z);
    let faults = only_unless(walker.types.alloc(), is_new, Rule::BadCase)?;
    walker.settle(node, &faults)?;
    Ok(z)
}

fn is_new_case(seen: &Seen, z: Option<i128>) -> bool
    ensures { result ≡ typing.is_new_case seen.now z }
{
    match z {
        None => false,
        Some(z) => !seen.has(z),
    }
}

// The label of a case with this value, which counts as seen.
fn with_case(seen: &mut Seen, z: Option<i128>) -> Result<TypedLabel, AllocError>
    ensures label { IfOk result (λ label. view.label_of label ≡ typing.case_label z) }
    ensures seen { OnOk result (seen.new ≡ typing.with_case seen.old z) }
{
    match z {
        None => Ok(TypedLabel::Default),
        Some(z) => {
            seen.add(z)?;
            Ok(TypedLabel::Case(z))
        }
    }
}

fn as_case(model: DataModel, ty: Option<Scalar>, z: i128) -> i128
    ensures { result ≡ typing.as_case model ty z }
{
    match ty {
        None => z,
        Some(s) => match converted(model, s, Constancy::Number(z)) {
            Constancy::Number(made) => made,
            _ => z,
        },
    }
}

// The value of a case, converted to the type of the switch, if it is an integer constant expression.
fn case_value(types: &Types, ty: Option<Scalar>, x: &Typed) -> Result<Option<i128>, AllocError>
    ensures { IfOk result (λ z. Stays types.now.rows (λ longer. z ≡ typing.case_value types.now.model ty (typed_of longer x.now))) }
{
    let integer = is_integer(types, x)?;
    match x.constancy {
        Constancy::Number(z) => {
            if integer {
                Ok(Some(as_case(types.model(), ty, z)))
            } else {
                Ok(None)
            }
        }
        _ => Ok(None),
    }
}
