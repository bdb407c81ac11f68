// Going over expressions and all that stands inside them: specifiers, declarators, structs and enums.
mod declarators;
mod ends;
mod marks;
mod members;
mod names;
mod naming;
mod operators;
mod parameters;
mod parts;
mod shapes;

ghost use Rattle.std.specs.Prelude.{◌≡◌};
ghost use Rattle.lt_tree.specs.View.{expression_of};
ghost use Rattle.lt_tree.specs.Typing.Steps.{without_marks};
ghost use Rattle.lt_tree.specs.Typing.Expressions.{as_value};
ghost use Rattle.lt_tree.specs.Typing.ExpressionTyping as typing;
ghost use Rattle.lt_tree.specs.Typing.TypeRows.{type_in};
ghost use Rattle.lt_env.specs.Going.{Gives};
ghost use Rattle.lt_type.specs.TypeOf as wanted;
ghost use Rattle.lt_env.specs.Views.{use_of, typed_in};

use crate::walk::operators::operand_use;
pub use declarators::declarator;
use lt_env::{TypeStop, Typed, Use, Walker};
use lt_model::Op;
use lt_tree::Expr;
use lt_tree::typed::{TypeId, When};
pub use marks::mark;
pub use naming::specifiers;

/// Goes over an expression.
#[cycle(typing)]
pub fn expression(walker: &mut Walker, e: &Expr, role: Use) -> Result<Box<Typed>, TypeStop>
    ensures { Gives typed_in walker.old walker.new result (λ types. typing.expression (expression_of e.now) (use_of role)) }
{
    match e {
        Expr::Name(name) => names::name(walker, name.as_slice(), role),
        Expr::Constant(text) => names::constant(walker, text.as_slice(), role),
        Expr::Text(bytes) => names::text(walker, bytes.as_slice(), role),
        Expr::Index(whole, place) => parts::index(walker, whole, place, role),
        Expr::Call(callee, list) => parts::call(walker, callee, list.as_slice(), role),
        Expr::Member(whole, name) => parts::member(walker, whole, name.as_slice(), role),
        Expr::Arrow(pointer, name) => parts::arrow(walker, pointer, name.as_slice(), role),
        Expr::PostInc(target) => operators::step(walker, When::Before, Op::Add, target, role),
        Expr::PostDec(target) => operators::step(walker, When::Before, Op::Sub, target, role),
        Expr::PreInc(target) => operators::step(walker, When::After, Op::Add, target, role),
        Expr::PreDec(target) => operators::step(walker, When::After, Op::Sub, target, role),
        Expr::Unary(op, operand) => {
            operators::unary(walker, *op, operand_use(*op), operand, role)
        }
        Expr::SizeofExpr(operand) => operators::size(walker, operand, role),
        Expr::SizeofType(name) => declarators::size_of_type(walker, name, role),
        Expr::Cast(name, operand) => declarators::cast(walker, name, operand, role),
        Expr::Binary(op, left, right) => operators::binary(walker, *op, left, right, role),
        Expr::Logical(op, left, right) => operators::logical(walker, *op, left, right, role),
        Expr::Conditional(test, left, right) => {
            operators::conditional(walker, test, left, right, role)
        }
        Expr::Assign(op, target, value) => operators::assignment(walker, *op, target, value, role),
        Expr::Comma(list) => operators::comma(walker, list.as_slice(), role),
        Expr::Marked(list, value) => marks::marked(walker, list.as_slice(), value, role),
        Expr::Decide(operand, when_true, when_false, tag) => marks::decide(
            walker,
            operand,
            when_true.as_slice(),
            when_false.as_slice(),
            tag.as_slice(),
            role,
        ),
        Expr::After(operand, id, tag) => {
            marks::after(walker, operand, id.as_slice(), tag.as_slice(), role)
        }
    }
}

/// Goes over an expression that is to be constant, C11 6.6: no mark stands in it.
pub fn constant_expression(walker: &mut Walker, e: &Expr) -> Result<Box<Typed>, TypeStop>
    ensures { Gives typed_in walker.old walker.new result (λ types. without_marks (typing.expression (expression_of e.now) as_value)) }
{
    operators::unmarked(walker, e, Use::Value)
}

/// The type of an expression whose value is wanted, C11 6.5, beside what `walker` knows: the names in scope, their objects and types. `Broken`
/// with the first rule that it breaks, and the number of its node; after that `walker` is of no use.
pub fn type_of(walker: &mut Walker, e: &Expr) -> Result<TypeId, TypeStop>
    ensures { Gives (λ types t. type_in types t) walker.old walker.new result (λ types. wanted.type_of (expression_of e.now)) }
{
    let x = expression(walker, e, Use::Value)?;
    Ok(x.own_type())
}
