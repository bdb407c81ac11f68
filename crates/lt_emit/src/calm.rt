// In which expressions footprints aren't needed.

ghost use Rattle.std.specs.Prelude.{◌≡◌, List};
ghost use Rattle.lt_tree.specs.Typing.Types.{CType};
ghost use Rattle.lt_tree.specs.Typing.ValueView.{value_of, place_of, values_in};
ghost use Rattle.lt_meaning.specs.Clashes.{is_of, is_place_of, are_of};
ghost use Rattle.lt_emit.specs.Calm.{grade_of};

use lt_tree::typed::{Place, Value};

/// What is asked of an expression.
#[derive(Clone, Copy, PartialEq, Eq)]
pub enum Grade {
    /// That it writes nothing, but what called functions write.
    WritesNothing,
    /// That nothing in it can clash.
    CannotClash,
}

/// Whether an expression is of a grade.
#[cycle(calm)]
pub fn is_of(grade: Grade, v: &Value) -> bool
    ensures { (types : List CType) → result ≡ is_of (grade_of grade) (value_of types v.now) }
{
    match v {
        Value::Constant(..) => true,
        Value::Load(_, p) | Value::Whole(_, p) | Value::Decay(_, p) | Value::AddressOf(_, p) =>
            is_place_of(grade, p),
        Value::Convert(_, _, operand)
        | Value::Minus(_, operand)
        | Value::Complement(_, operand)
        | Value::Not(_, operand)
        | Value::Marked(_, _, operand)
        | Value::Decide { operand, .. }
        | Value::After(_, operand, _) => is_of(grade, operand),
        Value::Arithmetic { left, right, .. }
        | Value::Move { left, right, .. }
        | Value::Distance { left, right, .. }
        | Value::Compare(_, _, left, right) => {
            is_of(Grade::WritesNothing, left) && is_of(Grade::WritesNothing, right)
        }
        Value::Logical(_, _, left, right) => is_of(grade, left) && is_of(grade, right),
        Value::Conditional(_, test, left, right) => {
            is_of(grade, test) && is_of(grade, left) && is_of(grade, right)
        }
        Value::Assign(_, p, v)
        | Value::Update {
            place: p,
            value: v,
            ..
        }
        | Value::UpdatePointer {
            place: p,
            value: v,
            ..
        } => {
            grade == Grade::CannotClash
                && is_place_of(Grade::WritesNothing, p)
                && is_of(Grade::WritesNothing, v)
        }
        Value::Step { place: p, .. } | Value::StepPointer { place: p, .. } => {
            grade == Grade::CannotClash && is_place_of(Grade::WritesNothing, p)
        }
        Value::Call(_, _, arguments) => are_of(Grade::WritesNothing, arguments.as_slice()),
        Value::Comma(_, parts) => are_of(grade, parts.as_slice()),
    }
}

// Whether an lvalue is.
#[cycle(calm)]
fn is_place_of(grade: Grade, p: &Place) -> bool
    ensures { (types : List CType) → result ≡ is_place_of (grade_of grade) (place_of types p.now) }
{
    match p {
        Place::Object(..) => true,
        Place::Pointed(_, v) | Place::Held(_, v) => is_of(grade, v),
        Place::Element { left, right, .. } => {
            is_of(Grade::WritesNothing, left) && is_of(Grade::WritesNothing, right)
        }
        Place::Part { whole, .. } => is_place_of(grade, whole),
    }
}

// Whether each of them is.
#[cycle(calm)]
fn are_of(grade: Grade, parts: &[Value]) -> bool
    ensures { (types : List CType) → result ≡ are_of (grade_of grade) (values_in types parts.now) }
{
    'parts: for part in parts {
        if !is_of(grade, part) {
            return false;
        }
    }
    true
}
