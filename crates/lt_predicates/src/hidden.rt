// Marks in an expression that hide something from an operator.

ghost use Rattle.std.specs.Prelude.{◌≡◌, ◌&&◌, ◌||◌};
ghost use Rattle.lt_tree.specs.View.{expression_of};
ghost use Rattle.lt_tree.specs.Records.{expressions_in};
ghost use Rattle.lt_objectives.specs.Copies as copies;

use lt_tree::Expr;

/// Whether marks in a pure expression hide an lvalue from `.`, or a null pointer constant from `?:`, C11 6.5.2.3 and 6.5.15. Then no predicate copies it.
#[cycle(hiding)]
pub fn hides(e: &Expr) -> bool
    ensures { result ≡ copies.hides (expression_of e.now) }
{
    match e {
        Expr::Index(left, right) | Expr::Binary(_, left, right) | Expr::Logical(_, left, right) => {
            hides(left) || hides(right)
        }
        Expr::Member(whole, _) => !is_core(whole) || hides(whole),
        Expr::Arrow(inner, _)
        | Expr::Unary(_, inner)
        | Expr::Cast(_, inner)
        | Expr::Marked(_, inner)
        | Expr::Decide(inner, ..)
        | Expr::After(inner, ..) => hides(inner),
        Expr::Conditional(test, left, right) => hides(test) || hides_in(left) || hides_in(right),
        Expr::Comma(parts) => any_hides(parts.as_slice()),
        Expr::Name(_)
        | Expr::Constant(_)
        | Expr::Text(_)
        | Expr::SizeofExpr(_)
        | Expr::SizeofType(_)
        | Expr::Call(..)
        | Expr::PostInc(_)
        | Expr::PostDec(_)
        | Expr::PreInc(_)
        | Expr::PreDec(_)
        | Expr::Assign(..) => false,
    }
}

// Of the second and third operand of `?:`.
#[cycle(hiding)]
fn hides_in(operand: &Expr) -> bool
    ensures { result ≡ copies.is_marked_cast (expression_of operand.now) || copies.hides (expression_of operand.now) }
{
    is_marked_cast(operand) || hides(operand)
}

#[cycle(hiding)]
fn any_hides(parts: &[Expr]) -> bool
    ensures { result ≡ copies.any_hides (expressions_in parts.now) }
{
    'parts: for part in parts {
        if hides(part) {
            return true;
        }
    }
    false
}

fn is_core(e: &Expr) -> bool
    ensures { result ≡ copies.is_core (expression_of e.now) }
{
    !matches!(e, Expr::Marked(..) | Expr::Decide(..) | Expr::After(..))
}

#[cycle(marked)]
fn is_marked_cast(e: &Expr) -> bool
    ensures { result ≡ copies.is_marked_cast (expression_of e.now) }
{
    match e {
        Expr::Marked(_, inner) | Expr::After(inner, ..) => is_cast(inner) || is_marked_cast(inner),
        _ => false,
    }
}

fn is_cast(e: &Expr) -> bool
    ensures { result ≡ copies.is_cast (expression_of e.now) }
{
    matches!(e, Expr::Cast(..))
}
