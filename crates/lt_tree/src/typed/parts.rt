// What is seen of typed expressions and places without going into them.

ghost use Rattle.std.specs.Prelude.{◌≡◌, List};
ghost use Rattle.lt_tree.specs.Typing.Types.{CType};
ghost use Rattle.lt_tree.specs.Typing.TypeRows.{type_in};
ghost use Rattle.lt_tree.specs.Typing.TypedTree.{type_of, type_at};
ghost use Rattle.lt_tree.specs.Typing.Expressions.{is_lvalue_place, object_of_place};
ghost use Rattle.lt_tree.specs.Typing.ValueView.{value_of, place_of};

use crate::typed::tree::{Place, Value};
use crate::typed::types::TypeId;

impl Value {
    /// The type, without qualifiers.
    pub fn ty(&self) -> TypeId
        ensures { (types : List CType) → type_in types result ≡ type_of (value_of types self.now) }
    {
        match self {
            Value::Constant(ty, _) => *ty,
            Value::Load(ty, _) => *ty,
            Value::Whole(ty, _) => *ty,
            Value::Decay(ty, _) => *ty,
            Value::AddressOf(ty, _) => *ty,
            Value::Convert(ty, _, _) => *ty,
            Value::Minus(ty, _) => *ty,
            Value::Complement(ty, _) => *ty,
            Value::Not(ty, _) => *ty,
            Value::Arithmetic { ty, .. } => *ty,
            Value::Move { ty, .. } => *ty,
            Value::Distance { ty, .. } => *ty,
            Value::Compare(ty, _, _, _) => *ty,
            Value::Logical(ty, _, _, _) => *ty,
            Value::Conditional(ty, _, _, _) => *ty,
            Value::Assign(ty, _, _) => *ty,
            Value::Update { ty, .. } => *ty,
            Value::UpdatePointer { ty, .. } => *ty,
            Value::Step { ty, .. } => *ty,
            Value::StepPointer { ty, .. } => *ty,
            Value::Call(ty, _, _) => *ty,
            Value::Comma(ty, _) => *ty,
            Value::Marked(ty, _, _) => *ty,
            Value::Decide { ty, .. } => *ty,
            Value::After(ty, _, _) => *ty,
        }
    }
}

impl Place {
    /// The type, with its qualifiers.
    pub fn ty(&self) -> TypeId
        ensures { (types : List CType) → type_in types result ≡ type_at (place_of types self.now) }
    {
        match self {
            Place::Object(ty, _) => *ty,
            Place::Pointed(ty, _) => *ty,
            Place::Element { ty, .. } => *ty,
            Place::Part { ty, .. } => *ty,
            Place::Held(ty, _) => *ty,
        }
    }

    /// Whether it is an lvalue: a part of a struct that is the value of an expression isn't.
    #[cycle(is_lvalue)]
    pub fn is_lvalue(&self) -> bool
        ensures { (types : List CType) → result ≡ is_lvalue_place (place_of types self.now) }
    {
        match self {
            Place::Part { whole, .. } => whole.is_lvalue(),
            Place::Held(_, _) => false,
            _ => true,
        }
    }

    /// The number of the object that it is, if it is one.
    pub fn object(&self) -> Option<u32>
        ensures { (types : List CType) → result ≡ object_of_place (place_of types self.now) }
    {
        match self {
            Place::Object(_, number) => Some(*number),
            _ => None,
        }
    }
}
