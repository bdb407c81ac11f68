// Whether typed expressions are pure.

ghost use Rattle.std.specs.Prelude.{◌≡◌, List};
ghost use Rattle.lt_tree.specs.Typing.Types.{CType};
ghost use Rattle.lt_tree.specs.Typing.ValueView.{value_of, place_of, values_in};
ghost use Rattle.lt_meaning.specs.Expressions as meaning;

use lt_tree::typed::{Place, Value};

/// Whether an expression reads and computes alone.
#[cycle(purity)]
pub fn is_pure(v: &Value) -> bool
    ensures { (types : List CType) → result ≡ meaning.is_pure (value_of types v.now) }
{
    match v {
        Value::Constant(..) => true,
        Value::Load(_, p) | Value::Whole(_, p) | Value::Decay(_, p) | Value::AddressOf(_, p) =>
            is_pure_place(p),
        Value::Convert(_, _, operand)
        | Value::Minus(_, operand)
        | Value::Complement(_, operand)
        | Value::Not(_, operand) => is_pure(operand),
        Value::Arithmetic { left, right, .. }
        | Value::Move { left, right, .. }
        | Value::Distance { left, right, .. }
        | Value::Compare(_, _, left, right)
        | Value::Logical(_, _, left, right) => is_pure(left) && is_pure(right),
        Value::Conditional(_, test, left, right) => {
            is_pure(test) && is_pure(left) && is_pure(right)
        }
        Value::Comma(_, parts) => are_pure(parts.as_slice()),
        _ => false,
    }
}

// Whether the address of an lvalue is.
#[cycle(purity)]
fn is_pure_place(p: &Place) -> bool
    ensures { (types : List CType) → result ≡ meaning.is_pure_place (place_of types p.now) }
{
    match p {
        Place::Object(..) => true,
        Place::Pointed(_, v) | Place::Held(_, v) => is_pure(v),
        Place::Element { left, right, .. } => is_pure(left) && is_pure(right),
        Place::Part { whole, .. } => is_pure_place(whole),
    }
}

// Whether each of them is.
#[cycle(purity)]
fn are_pure(parts: &[Value]) -> bool
    ensures { (types : List CType) → result ≡ meaning.are_pure (values_in types parts.now) }
{
    'parts: for part in parts {
        if !is_pure(part) {
            return false;
        }
    }
    true
}
