// What several operators ask of their operands.

ghost use Rattle.std.specs.Prelude.{◌≡◌, List, [], IfOk};
ghost use Rattle.lt_tree.specs.Typing.Types as typing;
ghost use Rattle.lt_tree.specs.Typing.Types.{CType};
ghost use Rattle.lt_tree.specs.Typing.TypeRows.{type_in};
ghost use Rattle.lt_tree.specs.Typing.ConstancyView.{constancy_of};
ghost use Rattle.lt_tree.specs.Typing.Extents.{size_of};
ghost use Rattle.lt_tree.specs.Typing.ValueView as view;
ghost use Rattle.lt_tree.specs.Typing.EntityView.{rule_of};
ghost use Rattle.lt_tree.specs.Typing.Rules as rules;
ghost use Rattle.lt_tree.specs.Typing.Expressions as expressions;
ghost use Rattle.lt_tree.specs.Typing.Operands as operands;
ghost use Rattle.lt_tree.specs.Typing.Operations as operations;
ghost use Rattle.lt_table.specs.ConstantViews.{IsExtent};
ghost use Rattle.lt_table.specs.TableRows.{Stays};
ghost use Rattle.lt_table.specs.TypesValue.{Widens, structs_at};
ghost use Rattle.lt_env.specs.Views.{typed_of, typed_in, judged_in};
ghost use Rattle.lt_judge.specs.Knowing.{known_with};

use lt_env::values::{converted_to, target_in, value_in};
use lt_env::{Faults, Judged, Objects, Typed};
use lt_table::{Types, is_null_constant};
use lt_tree::typed::{Constancy, Rule, Side, TypeId, Value};
use std::alloc::{AllocError, Global};

/// An expression and the rules that its operator breaks.
pub(crate) fn judgement(
    alloc: Global,
    faults: Faults,
    typed: Box<Typed>,
) -> Result<Box<Judged>, AllocError>
    ensures { IfOk result (λ judged. (types : List CType) → judged_in types judged ≡ expressions.judgement faults (typed_in types typed)) }
{
    Ok(Box::new(alloc, Judged { faults, typed })?)
}

/// One rule, unless this holds.
pub fn only_unless(alloc: Global, holds: bool, rule: Rule) -> Result<Faults, AllocError>
    ensures { IfOk result (λ faults. faults ≡ rules.unless holds (rule_of rule)) }
{
    let mut faults = Faults::new(alloc);
    faults.unless(holds, rule)?;
    Ok(faults)
}

/// The value of an expression as one of this type.
pub fn converted_value(
    types: &mut Types,
    t: TypeId,
    x: Box<Typed>,
) -> Result<Box<Value>, AllocError>
    ensures widens { Widens types.old types.new }
    ensures made { IfOk result (λ v. Stays types.new.rows (λ longer. view.value_of longer v.value ≡ expressions.converted_to (type_in longer t) (expressions.value_in (typed_in longer x)))) }
{
    let value = value_in(types, x)?;
    let value = converted_to(types, t, value)?;
    Ok(value)
}

// Whether it counts as a null pointer constant where it is assigned.
fn counts_as_null(x: &Typed) -> bool
    ensures { (types : List CType) → result ≡ operations.counts_as_null (typed_of types x.now) }
{
    is_null_constant(x.constancy) || (x.is_after && is_null_constant(x.erased))
}

/// Whether it can be assigned to this type.
pub fn fits(types: &Types, t: TypeId, x: &Typed) -> Result<bool, AllocError>
    ensures { IfOk result (λ b. Stays types.now.rows (λ longer. b ≡ operations.fits (type_in longer t) (typed_of longer x.now))) }
{
    let null = counts_as_null(x);
    match types.table().is_assignable(t, x.own_type(), null) {
        Some(fits) => Ok(fits),
        None => Err(AllocError),
    }
}

// Whether it is an lvalue that may be changed.
fn can_be_modified(types: &Types, x: &Typed) -> Result<bool, AllocError>
    ensures { IfOk result (λ b. Stays types.now.rows (λ longer. b ≡ operations.can_be_modified (structs_at longer types.now) (typed_of longer x.now))) }
{
    let modifiable = types.is_modifiable(x.own_type()).ok_or(AllocError)?;
    Ok(x.is_lvalue() && modifiable)
}

fn writes_volatile(types: &Types, x: &Typed) -> Result<bool, AllocError>
    ensures { IfOk result (λ b. Stays types.now.rows (λ longer. b ≡ operations.writes_volatile (typed_of longer x.now))) }
{
    let quals = types
        .table()
        .own_qualifiers(x.own_type())
        .ok_or(AllocError)?;
    Ok(x.is_lvalue() && quals.volatile)
}

/// The rules that a write to it breaks.
pub(crate) fn write_faults(types: &Types, x: &Typed) -> Result<Faults, AllocError>
    ensures { IfOk result (λ faults. Stays types.now.rows (λ longer. faults ≡ operations.write_faults (structs_at longer types.now) (typed_of longer x.now))) }
{
    let modified = can_be_modified(types, x)?;
    let volatile = writes_volatile(types, x)?;
    let mut faults = Faults::new(types.alloc());
    faults.unless(modified, Rule::NotModifiable)?;
    faults.broken_if(Rule::VolatileAccess, volatile)?;
    Ok(faults)
}

/// Whether its type is an integer.
pub fn is_integer(types: &Types, x: &Typed) -> Result<bool, AllocError>
    ensures { IfOk result (λ b. Stays types.now.rows (λ longer. b ≡ typing.is_integer (expressions.own_type (typed_of longer x.now)))) }
{
    types.table().is_integer(x.own_type()).ok_or(AllocError)
}

/// Whether it is an integer or a pointer.
pub fn is_scalar(types: &Types, x: &Typed) -> Result<bool, AllocError>
    ensures { IfOk result (λ b. Stays types.now.rows (λ longer. b ≡ typing.is_scalar (expressions.own_type (typed_of longer x.now)))) }
{
    types.table().is_scalar(x.own_type()).ok_or(AllocError)
}

/// Whether both are integers.
pub(crate) fn are_integers(types: &Types, x: &Typed, y: &Typed) -> Result<bool, AllocError>
    ensures { IfOk result (λ b. Stays types.now.rows (λ longer. b ≡ operands.are_integers (expressions.own_type (typed_of longer x.now)) (expressions.own_type (typed_of longer y.now)))) }
{
    let left = is_integer(types, x)?;
    let right = is_integer(types, y)?;
    Ok(left && right)
}

/// Whether its type is a pointer.
pub(crate) fn is_pointer(types: &Types, x: &Typed) -> Result<bool, AllocError>
    ensures { IfOk result (λ b. Stays types.now.rows (λ longer. b ≡ typing.is_pointer (expressions.own_type (typed_of longer x.now)))) }
{
    types.table().is_pointer(x.own_type()).ok_or(AllocError)
}

/// Of two operands of which one is a pointer, the side on which it is.
pub(crate) fn side_of(types: &Types, x: &Typed) -> Result<Side, AllocError>
    ensures { IfOk result (λ side. Stays types.now.rows (λ longer. view.side_of side ≡ operations.side_of (typed_of longer x.now))) }
{
    if is_pointer(types, x)? {
        Ok(Side::OnLeft)
    } else {
        Ok(Side::OnRight)
    }
}

/// The operand that is the pointer.
pub(crate) fn pointer_among<'a>(
    types: &Types,
    x: &'a Typed,
    y: &'a Typed,
) -> Result<&'a Typed, AllocError>
    ensures { IfOk result (λ p. Stays types.now.rows (λ longer. typed_of longer p.now ≡ operations.pointer_among (typed_of longer x.now) (typed_of longer y.now))) }
{
    if is_pointer(types, x)? { Ok(x) } else { Ok(y) }
}

/// The other one.
pub(crate) fn other_among<'a>(
    types: &Types,
    x: &'a Typed,
    y: &'a Typed,
) -> Result<&'a Typed, AllocError>
    ensures { IfOk result (λ p. Stays types.now.rows (λ longer. typed_of longer p.now ≡ operations.other_among (typed_of longer x.now) (typed_of longer y.now))) }
{
    if is_pointer(types, x)? { Ok(y) } else { Ok(x) }
}

/// The size of what it points to.
pub(crate) fn target_size(types: &mut Types, x: &Typed) -> Result<u64, AllocError>
    ensures widens { Widens types.old types.new }
    ensures made { IfOk result (λ size. Stays types.new.rows (λ longer. size ≡ size_of types.old.model (structs_at longer types.old) (operations.target_in (typed_of longer x.now)))) }
{
    let target = target_in(types, x)?;
    types.size_of(target).ok_or(AllocError)
}

/// Of two operands of which one is a pointer, the size of what it points to.
pub(crate) fn element_size(types: &mut Types, x: &Typed, y: &Typed) -> Result<u64, AllocError>
    ensures widens { Widens types.old types.new }
    ensures made { IfOk result (λ size. Stays types.new.rows (λ longer. size ≡ operations.element_size (known_with longer types.old []) (typed_of longer x.now) (typed_of longer y.now))) }
{
    let pointer = pointer_among(types, x, y)?;
    target_size(types, pointer)
}

/// The size of an object.
pub(crate) fn object_size(types: &Types, objects: &Objects, number: u32) -> Result<u64, AllocError>
    ensures { IfOk result (λ size. Stays types.now.rows (λ longer. size ≡ operations.object_size (known_with longer types.now objects.now) number)) }
{
    match objects.get(number) {
        Some(object) => types.size_of(object.ty).ok_or(AllocError),
        None => Ok(0),
    }
}

/// The size of the object of an address; of anything else any.
pub(crate) fn extent_of(types: &Types, objects: &Objects, c: Constancy) -> Result<u64, AllocError>
    ensures { IfOk result (λ extent. Stays types.now.rows (λ longer. IsExtent (operations.object_size (known_with longer types.now objects.now)) extent (constancy_of c))) }
{
    match c {
        Constancy::Address { object, .. } => {
            let size = object_size(types, objects, object)?;
            Ok(size)
        }
        _ => Ok(0),
    }
}
