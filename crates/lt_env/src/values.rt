// Places and values of expressions, C11 6.3, and how expressions are made of them.

ghost use Rattle.std.specs.Prelude.{◌≡◌, ◌||◌, if◌then◌else◌, pos, List, IfOk, IfSome};
ghost use Rattle.lt_tree.specs.Typing.Types.{CType, Void, Pointer, same, unqualified, is_struct};
ghost use Rattle.lt_tree.specs.Typing.TypeRows.{type_in};
ghost use Rattle.lt_tree.specs.Typing.ConstancyView.{constancy_of};
ghost use Rattle.lt_tree.specs.Typing.TypedTree as tree;
ghost use Rattle.lt_tree.specs.Typing.ValueView.{conversion_of, value_of, place_of};
ghost use Rattle.lt_tree.specs.Typing.Expressions as typing;
ghost use Rattle.lt_tree.specs.Typing.Operations as operations;
ghost use Rattle.lt_table.specs.TableRows.{Stays, Makes};
ghost use Rattle.lt_table.specs.TypesValue.{Widens};
ghost use Rattle.lt_env.specs.Views.{typed_of, typed_in, use_of};

use crate::typed::{Form, Typed, Use};
use lt_model::Scalar;
use lt_table::{Kind, Types, constancy_as_number, constancy_as_pointer};
use lt_tree::typed::{Constancy, Conversion, Place, TypeId, Value, makes};
use std::alloc::{AllocError, Global};

/// A value as an expression.
pub fn valued(
    alloc: Global,
    value: Box<Value>,
    constancy: Constancy,
    erased: Constancy,
) -> Result<Box<Typed>, AllocError>
    ensures { IfOk result (λ x. (types : List CType) → typed_in types x ≡ typing.valued (value_of types value.value) (constancy_of constancy) (constancy_of erased)) }
{
    Ok(Box::new(
        alloc,
        Typed {
            form: Form::Value(value),
            is_register: false,
            is_after: false,
            constancy,
            erased,
        },
    )?)
}

/// A value that is no constant.
pub fn varies(alloc: Global, value: Box<Value>) -> Result<Box<Typed>, AllocError>
    ensures { IfOk result (λ x. (types : List CType) → typed_in types x ≡ typing.varies (value_of types value.value)) }
{
    valued(alloc, value, Constancy::Varying, Constancy::Varying)
}

/// A place as an expression.
pub fn placed(
    alloc: Global,
    place: Box<Place>,
    constancy: Constancy,
) -> Result<Box<Typed>, AllocError>
    ensures { IfOk result (λ x. (types : List CType) → typed_in types x ≡ typing.placed (place_of types place.value) (constancy_of constancy)) }
{
    Ok(Box::new(
        alloc,
        Typed {
            form: Form::Place(place),
            is_register: false,
            is_after: false,
            constancy,
            erased: constancy,
        },
    )?)
}

/// A constant of an integer type.
pub fn constant(types: &mut Types, scalar: Scalar, z: i128) -> Result<Box<Typed>, AllocError>
    ensures widens { Widens types.old types.new }
    ensures made { IfOk result (λ x. Stays types.new.rows (λ longer. typed_in longer x ≡ typing.constant scalar z)) }
{
    let ty = types.num(scalar)?;
    let value = makes::value::constant(types.alloc(), ty, z)?;
    valued(
        types.alloc(),
        value,
        Constancy::Number(z),
        Constancy::Number(z),
    )
}

/// What stands where a rule is broken.
pub fn nothing(types: &mut Types) -> Result<Box<Typed>, AllocError>
    ensures widens { Widens types.old types.new }
    ensures made { IfOk result (λ x. Stays types.new.rows (λ longer. typed_in longer x ≡ typing.nothing)) }
{
    constant(types, Scalar::Int, 0)
}

impl Typed {
    /// Its type, with the qualifiers of a place.
    pub fn own_type(&self) -> TypeId
        ensures { (types : List CType) → type_in types result ≡ typing.own_type (typed_of types self.now) }
    {
        match &self.form {
            Form::Value(value) => value.ty(),
            Form::Place(place) => place.ty(),
            Form::Designator(_, ty) => *ty,
        }
    }

    /// Whether it is an lvalue.
    pub fn is_lvalue(&self) -> bool
        ensures { (types : List CType) → result ≡ typing.is_lvalue (typed_of types self.now) }
    {
        match &self.form {
            Form::Place(place) => place.is_lvalue(),
            _ => false,
        }
    }
}

/// The integer type of an expression; `int` where it has none.
pub fn scalar_in(types: &Types, x: &Typed) -> Result<Scalar, AllocError>
    ensures { IfOk result (λ s. Stays types.now.rows (λ longer. s ≡ typing.scalar_in (typed_of longer x.now))) }
{
    match types.table().scalar_of(x.own_type()) {
        Some(Some(scalar)) => Ok(scalar),
        Some(None) => Ok(Scalar::Int),
        None => Err(AllocError),
    }
}

/// What a pointer points to; `int` where it is none.
pub fn target_in(types: &mut Types, x: &Typed) -> Result<TypeId, AllocError>
    ensures widens { Widens types.old types.new }
    ensures made { Makes types.new.rows result (λ longer. operations.target_in (typed_of longer x.now)) }
{
    match types.table().target_of(x.own_type()) {
        Some(Some(target)) => Ok(target),
        Some(None) => types.num(Scalar::Int),
        None => Err(AllocError),
    }
}

// The value of a place that is no array.
fn read_at(types: &mut Types, t: TypeId, place: Box<Place>) -> Result<Box<Value>, AllocError>
    ensures widens { Widens types.old types.new }
    ensures made { IfOk result (λ v. Stays types.new.rows (λ longer. value_of longer v.value ≡ (if is_struct (type_in longer t) then tree.Whole (unqualified (type_in longer t)) (place_of longer place.value) else tree.Load (unqualified (type_in longer t)) (place_of longer place.value)))) }
{
    let Some(is_struct) = types.table().is_struct(t) else {
        return Err(AllocError);
    };
    let bare = types.unqualified(t)?;
    if is_struct {
        makes::value::whole(types.alloc(), bare, place)
    } else {
        makes::value::load(types.alloc(), bare, place)
    }
}

// The value of a place: an array is the address of its first element.
fn value_at(types: &mut Types, place: Box<Place>) -> Result<Box<Value>, AllocError>
    ensures widens { Widens types.old types.new }
    ensures made { IfOk result (λ v. Stays types.new.rows (λ longer. value_of longer v.value ≡ typing.value_at (tree.type_at (place_of longer place.value)) (place_of longer place.value))) }
{
    let t = place.ty();
    match types.table().array_of(t) {
        None => Err(AllocError),
        Some(None) => read_at(types, t, place),
        Some(Some((element, _))) => {
            let pointer = types.pointer(element)?;
            makes::value::decay(types.alloc(), pointer, place)
        }
    }
}

// What stands for the value of a function's name.
fn no_value(types: &mut Types) -> Result<Box<Value>, AllocError>
    ensures widens { Widens types.old types.new }
    ensures made { IfOk result (λ v. Stays types.new.rows (λ longer. value_of longer v.value ≡ tree.Constant Void (pos 0))) }
{
    let void = types.void()?;
    makes::value::constant(types.alloc(), void, 0)
}

/// Its value: that of a place is read, an array's is the address of its first element.
pub fn value_in(types: &mut Types, x: Box<Typed>) -> Result<Box<Value>, AllocError>
    ensures widens { Widens types.old types.new }
    ensures made { IfOk result (λ v. Stays types.new.rows (λ longer. value_of longer v.value ≡ typing.value_in (typed_in longer x))) }
{
    let Typed { form, .. } = Box::into_inner(x);
    match form {
        Form::Value(value) => Ok(value),
        Form::Place(place) => value_at(types, place),
        Form::Designator(_, _) => no_value(types),
    }
}

// A value in a place of its own.
fn held(types: &Types, value: Box<Value>) -> Result<Box<Place>, AllocError>
    ensures { IfOk result (λ p. (longer : List CType) → place_of longer p.value ≡ tree.Held (tree.type_of (value_of longer value.value)) (value_of longer value.value)) }
{
    let t = value.ty();
    makes::place::held(types.alloc(), t, value)
}

/// Its place: a value is held in one of its own.
pub fn place_in(types: &mut Types, x: Box<Typed>) -> Result<Box<Place>, AllocError>
    ensures widens { Widens types.old types.new }
    ensures made { IfOk result (λ p. Stays types.new.rows (λ longer. place_of longer p.value ≡ typing.place_in (typed_in longer x))) }
{
    let Typed { form, .. } = Box::into_inner(x);
    match form {
        Form::Value(value) => held(types, value),
        Form::Place(place) => Ok(place),
        Form::Designator(_, _) => {
            let value = no_value(types)?;
            held(types, value)
        }
    }
}

// A place that is read: of its constancy an array keeps the address.
fn read(
    types: &mut Types,
    place: Box<Place>,
    is_register: bool,
    is_after: bool,
    constancy: Constancy,
    erased: Constancy,
) -> Result<Box<Typed>, AllocError>
    ensures widens { Widens types.old types.new }
    ensures made { IfOk result (λ y. Stays types.new.rows (λ longer. typed_in longer y ≡ typing.read (place_of longer place.value) (record {
      form = typing.a_place (place_of longer place.value);
      is_register = is_register;
      is_after = is_after;
      constancy = constancy_of constancy;
      erased = constancy_of erased;
    }))) }
{
    let Some(is_array) = types.table().is_array(place.ty()) else {
        return Err(AllocError);
    };
    let value = value_at(types, place)?;
    if !is_array {
        return varies(types.alloc(), value);
    }
    let typed = Typed {
        form: Form::Value(value),
        is_register,
        is_after,
        constancy,
        erased,
    };
    Ok(Box::new(types.alloc(), typed)?)
}

/// As it is read, if it is a place: of its constancy an array keeps the address.
pub fn as_it_is_read(types: &mut Types, x: Box<Typed>) -> Result<Box<Typed>, AllocError>
    ensures widens { Widens types.old types.new }
    ensures made { IfOk result (λ y. Stays types.new.rows (λ longer. typed_in longer y ≡ typing.as_it_is_read (typed_in longer x))) }
{
    let Typed {
        form,
        is_register,
        is_after,
        constancy,
        erased,
    } = Box::into_inner(x);
    match form {
        Form::Place(place) => read(types, place, is_register, is_after, constancy, erased),
        form => {
            let typed = Typed {
                form,
                is_register,
                is_after,
                constancy,
                erased,
            };
            Ok(Box::new(types.alloc(), typed)?)
        }
    }
}

/// As the text around it uses it.
pub fn used(types: &mut Types, role: Use, x: Box<Typed>) -> Result<Box<Typed>, AllocError>
    ensures widens { Widens types.old types.new }
    ensures made { IfOk result (λ y. Stays types.new.rows (λ longer. typed_in longer y ≡ typing.used (use_of role) (typed_in longer x))) }
{
    match role {
        Use::Place => Ok(x),
        _ => as_it_is_read(types, x),
    }
}

// What becomes of a value of the second type as one of the first.
fn how_to(types: &Types, t: TypeId, u: TypeId) -> Option<Conversion>
    ensures { IfSome result (λ how. Stays types.now.rows (λ longer. conversion_of how ≡ typing.how_to (type_in longer t) (type_in longer u))) }
{
    let table = types.table();
    let is_void = table.is_void(t)?;
    let to_integer = table.is_integer(t)?;
    let from_integer = table.is_integer(u)?;
    Some(if is_void {
        Conversion::ToVoid
    } else if to_integer {
        if from_integer {
            Conversion::ToInteger
        } else {
            Conversion::ToTruth
        }
    } else if from_integer {
        Conversion::ToNull
    } else {
        Conversion::ToPointer
    })
}

/// A value that the text casts to this type.
pub fn cast_to(types: &mut Types, t: TypeId, v: Box<Value>) -> Result<Box<Value>, AllocError>
    ensures widens { Widens types.old types.new }
    ensures made { IfOk result (λ w. Stays types.new.rows (λ longer. value_of longer w.value ≡ typing.cast_to (type_in longer t) (value_of longer v.value))) }
{
    let Some(how) = how_to(types, t, v.ty()) else {
        return Err(AllocError);
    };
    makes::value::convert(types.alloc(), t, how, v)
}

// Whether nothing is seen of the conversion of a value to this type.
fn is_kept(types: &Types, t: TypeId, v: &Value) -> Option<bool>
    ensures { IfSome result (λ kept. Stays types.now.rows (λ longer. kept ≡ (is_struct (type_in longer t) || same (type_in longer t) (tree.type_of (value_of longer v.now))))) }
{
    let table = types.table();
    let is_struct = table.is_struct(t)?;
    let is_same = table.same(t, v.ty())?;
    Some(is_struct || is_same)
}

/// A value as one of this type, of which nothing is seen where it has it already.
pub fn converted_to(types: &mut Types, t: TypeId, v: Box<Value>) -> Result<Box<Value>, AllocError>
    ensures widens { Widens types.old types.new }
    ensures made { IfOk result (λ w. Stays types.new.rows (λ longer. value_of longer w.value ≡ typing.converted_to (type_in longer t) (value_of longer v.value))) }
{
    match is_kept(types, t, &v) {
        None => Err(AllocError),
        Some(true) => Ok(v),
        Some(false) => cast_to(types, t, v),
    }
}

// Whether it is `void *`.
fn is_void_pointer(types: &mut Types, t: TypeId) -> Result<bool, AllocError>
    ensures widens { Widens types.old types.new }
    ensures made { IfOk result (λ b. Stays types.new.rows (λ longer. b ≡ same (type_in longer t) (Pointer Void))) }
{
    let void = types.void()?;
    let pointer = types.pointer(void)?;
    match types.table().same(t, pointer) {
        Some(same) => Ok(same),
        None => Err(AllocError),
    }
}

// What a constant is once it is converted to a type without qualifiers.
fn constancy_to_bare(types: &mut Types, t: TypeId, c: Constancy) -> Result<Constancy, AllocError>
    ensures widens { Widens types.old types.new }
    ensures made { IfOk result (λ d. Stays types.new.rows (λ longer. unqualified (type_in longer t) ≡ type_in longer t → constancy_of d ≡ typing.constancy_to types.old.model (type_in longer t) (constancy_of c))) }
{
    match types.table().kind(t) {
        None => Err(AllocError),
        Some(Kind::Num(scalar)) => Ok(constancy_as_number(types.model(), scalar, c)),
        Some(Kind::Pointer(_)) => {
            let void = is_void_pointer(types, t)?;
            Ok(constancy_as_pointer(void, c))
        }
        Some(_) => Ok(Constancy::Varying),
    }
}

/// What a constant is once it is converted to this type.
pub fn constancy_to(types: &mut Types, t: TypeId, c: Constancy) -> Result<Constancy, AllocError>
    ensures widens { Widens types.old types.new }
    ensures made { IfOk result (λ d. Stays types.new.rows (λ longer. constancy_of d ≡ typing.constancy_to types.old.model (type_in longer t) (constancy_of c))) }
{
    let Some(bare) = types.table().unqualified(t) else {
        return Err(AllocError);
    };
    match types.table().same(t, bare) {
        None => Err(AllocError),
        Some(true) => constancy_to_bare(types, t, c),
        Some(false) => Ok(Constancy::Varying),
    }
}
