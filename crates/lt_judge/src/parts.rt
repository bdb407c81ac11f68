// Members and elements, C11 6.5.2.1 and 6.5.2.3.

ghost use Rattle.std.specs.Prelude.{◌≡◌, List, IfOk, IfSome, Option, map, option_and_then};
ghost use Rattle.lt_table.specs.ConstantViews.{IsExtent};
ghost use Rattle.lt_table.specs.StructTables.{IsMember};
ghost use Rattle.lt_table.specs.TableRows.{Stays};
ghost use Rattle.lt_table.specs.TypesValue.{Widens, structs_at};
ghost use Rattle.lt_tree.specs.Typing.Types.{CType, is_pointer, qualified, qualifiers_of, target_of};
ghost use Rattle.lt_tree.specs.Typing.TypeRows.{type_in};
ghost use Rattle.lt_tree.specs.Typing.TypedTree as tree;
ghost use Rattle.lt_tree.specs.Typing.Extents.{Placed, size_of};
ghost use Rattle.lt_tree.specs.Typing.Constants as constants;
ghost use Rattle.lt_tree.specs.Typing.ConstancyView.{constancy_of};
ghost use Rattle.lt_tree.specs.Typing.EntityView.{object_of};
ghost use Rattle.lt_tree.specs.Typing.ValueView.{side_of, value_of, place_of};
ghost use Rattle.lt_tree.specs.Typing.Entities.{Known};
ghost use Rattle.lt_tree.specs.Typing.Operands as operands;
ghost use Rattle.lt_tree.specs.Typing.Expressions as typing;
ghost use Rattle.lt_tree.specs.Typing.Operations as operations;
ghost use Rattle.lt_env.specs.Going.{Gives, answering};
ghost use Rattle.lt_env.specs.Views.{typed_of, typed_in, judged_in};

use crate::one_rule::{broken, judgement_unless};
use crate::shared::{extent_of, judgement};
use crate::unary::pointed;
use lt_env::values::{place_in, target_in, value_in};
use lt_env::{Faults, Form, Judged, Objects, TypeStop, Typed, Walker};
use lt_table::{Types, moved_by};
use lt_tree::typed::{Constancy, Place, Rule, Side, TypeId, makes};
use std::alloc::AllocError;

// The type and the offset of the member of a struct's type that has this name.
fn member_in(types: &Types, t: TypeId, name: &[u8]) -> Result<Option<(TypeId, u64)>, AllocError>
    ensures { IfOk result (λ found. Stays types.now.rows (λ longer. (known : Known) → known.model ≡ types.now.model → known.structs ≡ structs_at longer types.now → IsMember longer found (operations.member_in known (type_in longer t) name.now))) }
{
    match types.table().struct_of(t) {
        None => Err(AllocError),
        Some(None) => Ok(None),
        Some(Some(number)) => Ok(types.member_of(number, name)),
    }
}

// A constant address, so many bytes further on.
fn behind(c: Constancy, offset: u64) -> Option<Constancy>
    ensures { IfSome result (λ d. (x : typing.Typed) → (member : Placed) → x.constancy ≡ constancy_of c → member.offset ≡ offset → constancy_of d ≡ typing.Typed.constancy (operations.part_of x member)) }
{
    match c {
        Constancy::Address {
            object,
            offset: before,
        } => match before.checked_add(offset) {
            None => None,
            Some(offset) => Some(Constancy::Address { object, offset }),
        },
        _ => Some(Constancy::Varying),
    }
}

// The place of a member.
fn part_at(
    types: &mut Types,
    x: Box<Typed>,
    t: TypeId,
    offset: u64,
) -> Result<Box<Place>, AllocError>
    ensures widens { Widens types.old types.new }
    ensures made { IfOk result (λ p. Stays types.new.rows (λ longer. place_of longer p.value ≡ tree.Part (qualified (qualifiers_of (typing.own_type (typed_in longer x))) (type_in longer t)) offset (typing.place_in (typed_in longer x)))) }
{
    let Some(quals) = types.table().qualifiers_of(x.own_type()) else {
        return Err(AllocError);
    };
    let t = types.qualified(quals, t)?;
    let whole = place_in(types, x)?;
    makes::place::part(types.alloc(), t, offset, whole)
}

// A member as an expression.
fn part_of(
    types: &mut Types,
    x: Box<Typed>,
    t: TypeId,
    offset: u64,
) -> Result<Box<Typed>, AllocError>
    ensures widens { Widens types.old types.new }
    ensures made { IfOk result (λ y. Stays types.new.rows (λ longer. (member : Placed) → member.type ≡ type_in longer t → member.offset ≡ offset → typed_in longer y ≡ operations.part_of (typed_in longer x) member)) }
{
    let Some(constancy) = behind(x.constancy, offset) else {
        return Err(AllocError);
    };
    let is_register = x.is_register;
    let is_after = x.is_after;
    let place = part_at(types, x, t, offset)?;
    let typed = Typed {
        form: Form::Place(place),
        is_register,
        is_after,
        constancy,
        erased: constancy,
    };
    Ok(Box::new(types.alloc(), typed)?)
}

// A member, if it was found.
fn judge_part(
    types: &mut Types,
    x: Box<Typed>,
    found: Option<(TypeId, u64)>,
) -> Result<Box<Judged>, AllocError>
    ensures widens { Widens types.old types.new }
    ensures made { IfOk result (λ j. Stays types.new.rows (λ longer. (member : Option Placed) → IsMember longer found member → judged_in longer j ≡ operations.judge_part (typed_in longer x) member)) }
{
    match found {
        None => broken(types, Rule::NoMember),
        Some((t, offset)) => {
            let typed = part_of(types, x, t, offset)?;
            let alloc = types.alloc();
            judgement(alloc, Faults::new(alloc), typed)
        }
    }
}

#[tactic(auto, unfolding(lt_tree::specs::Typing::Operations::judge_member))]
fn member(types: &mut Types, x: Box<Typed>, name: &[u8]) -> Result<Box<Judged>, AllocError>
    ensures widens { Widens types.old types.new }
    ensures made { IfOk result (λ j. Stays types.new.rows (λ longer. (known : Known) → known.model ≡ types.old.model → known.structs ≡ structs_at longer types.old → judged_in longer j ≡ operations.judge_member (typed_in longer x) name.now known)) }
{
    let found = member_in(types, x.own_type(), name)?;
    judge_part(types, x, found)
}

/// `x.name`.
pub fn judge_member(
    walker: &mut Walker,
    x: Box<Typed>,
    name: &[u8],
) -> Result<Box<Judged>, TypeStop>
    ensures { Gives judged_in walker.old walker.new result (λ types. answering (λ known. operations.judge_member (typed_in types x) name.now known)) }
{
    Ok(member(&mut walker.types, x, name)?)
}

// The member of what it points to.
fn member_behind(types: &Types, x: &Typed, name: &[u8]) -> Result<Option<(TypeId, u64)>, AllocError>
    ensures { IfOk result (λ found. Stays types.now.rows (λ longer. (known : Known) → known.model ≡ types.now.model → known.structs ≡ structs_at longer types.now → IsMember longer found (option_and_then (λ t. operations.member_in known t name.now) (target_of (typing.own_type (typed_of longer x.now)))))) }
{
    match types.table().target_of(x.own_type()) {
        None => Err(AllocError),
        Some(None) => Ok(None),
        Some(Some(target)) => member_in(types, target, name),
    }
}

#[tactic(auto, unfolding(lt_tree::specs::Typing::Operations::judge_arrow))]
fn arrow(types: &mut Types, x: Box<Typed>, name: &[u8]) -> Result<Box<Judged>, AllocError>
    ensures widens { Widens types.old types.new }
    ensures made { IfOk result (λ j. Stays types.new.rows (λ longer. (known : Known) → known.model ≡ types.old.model → known.structs ≡ structs_at longer types.old → judged_in longer j ≡ operations.judge_arrow (typed_in longer x) name.now known)) }
{
    let found = member_behind(types, &x, name)?;
    let whole = pointed(types, x)?;
    judge_part(types, whole, found)
}

/// `x->name`.
pub fn judge_arrow(walker: &mut Walker, x: Box<Typed>, name: &[u8]) -> Result<Box<Judged>, TypeStop>
    ensures { Gives judged_in walker.old walker.new result (λ types. answering (λ known. operations.judge_arrow (typed_in types x) name.now known)) }
{
    Ok(arrow(&mut walker.types, x, name)?)
}

// What a subscript has from its pointer.
#[derive(Clone, Copy, PartialEq, Eq, Debug)]
struct Elements {
    ty: TypeId,
    size: u64,
    /// That of the address of the one that is meant.
    constancy: Constancy,
    is_register: bool,
}

// Where an element is known to be: its constancy as an address.
fn constancy_at(
    types: &Types,
    objects: &Objects,
    size: u64,
    pointer: &Typed,
    other: &Typed,
) -> Result<Constancy, AllocError>
    ensures { IfOk result (λ c. Stays types.now.rows (λ longer. (known : Known) → known.model ≡ types.now.model → known.structs ≡ structs_at longer types.now → known.objects ≡ map (object_of longer) objects.now → constancy_of c ≡ constants.moved_by (operations.object_size known) size (constancy_of pointer.now.constancy) (constancy_of other.now.constancy))) }
{
    let extent = extent_of(types, objects, pointer.constancy)?;
    Ok(moved_by(extent, size, pointer.constancy, other.constancy))
}

fn elements_behind(
    types: &mut Types,
    objects: &Objects,
    pointer: &Typed,
    other: &Typed,
) -> Result<Elements, AllocError>
    ensures widens { Widens types.old types.new }
    ensures ty { IfOk result (λ it. Stays types.new.rows (λ longer. type_in longer it.ty ≡ operations.target_in (typed_of longer pointer.now))) }
    ensures size { IfOk result (λ it. Stays types.new.rows (λ longer. it.size ≡ size_of types.new.model (structs_at longer types.new) (operations.target_in (typed_of longer pointer.now)))) }
    ensures constancy { IfOk result (λ it. Stays types.new.rows (λ longer. (known : Known) → known.model ≡ types.old.model → known.structs ≡ structs_at longer types.old → known.objects ≡ map (object_of longer) objects.now → constancy_of it.constancy ≡ constants.moved_by (operations.object_size known) it.size (constancy_of pointer.now.constancy) (constancy_of other.now.constancy))) }
    ensures register { IfOk result (λ it. it.is_register ≡ pointer.now.is_register) }
{
    let ty = target_in(types, pointer)?;
    let Some(size) = types.size_of(ty) else {
        return Err(AllocError);
    };
    let constancy = constancy_at(types, objects, size, pointer, other)?;
    Ok(Elements {
        ty,
        size,
        constancy,
        is_register: pointer.is_register,
    })
}

// An element as an expression.
fn element(
    types: &mut Types,
    side: Side,
    it: Elements,
    x: Box<Typed>,
    y: Box<Typed>,
) -> Result<Box<Typed>, AllocError>
    ensures widens { Widens types.old types.new }
    ensures made { IfOk result (λ z. Stays types.new.rows (λ longer. typed_in longer z ≡ record (typing.placed (tree.Element (type_in longer it.ty) it.size (side_of side) (typing.value_in (typed_in longer x)) (typing.value_in (typed_in longer y))) (constancy_of it.constancy)) { is_register = it.is_register })) }
{
    let left = value_in(types, x)?;
    let right = value_in(types, y)?;
    let place = makes::place::element(types.alloc(), it.ty, it.size, side, left, right)?;
    let typed = Typed {
        form: Form::Place(place),
        is_register: it.is_register,
        is_after: false,
        constancy: it.constancy,
        erased: it.constancy,
    };
    Ok(Box::new(types.alloc(), typed)?)
}

// `x[y]`, whatever it breaks.
#[tactic(auto, unfolding(lt_tree::specs::Typing::Operations::judge_index))]
fn subscript(
    types: &mut Types,
    objects: &Objects,
    x: Box<Typed>,
    y: Box<Typed>,
) -> Result<Box<Typed>, AllocError>
    ensures widens { Widens types.old types.new }
    ensures made { IfOk result (λ z. Stays types.new.rows (λ longer. (known : Known) → known.model ≡ types.old.model → known.structs ≡ structs_at longer types.old → known.objects ≡ map (object_of longer) objects.now → typed_in longer z ≡ typing.Judged.typed (operations.judge_index (typed_in longer x) (typed_in longer y) known))) }
{
    match types.table().is_pointer(x.own_type()) {
        None => Err(AllocError),
        Some(true) => {
            let it = elements_behind(types, objects, &x, &y)?;
            element(types, Side::OnLeft, it, x, y)
        }
        Some(false) => {
            let it = elements_behind(types, objects, &y, &x)?;
            element(types, Side::OnRight, it, x, y)
        }
    }
}

// Whether these can be the operands of a subscript.
fn can_be_subscripted(types: &Types, x: &Typed, y: &Typed) -> Result<bool, AllocError>
    ensures { IfOk result (λ b. Stays types.now.rows (λ longer. b ≡ operands.can_be_subscripted (structs_at longer types.now) (typing.own_type (typed_of longer x.now)) (typing.own_type (typed_of longer y.now)))) }
{
    match types.can_be_subscripted(x.own_type(), y.own_type()) {
        Some(can_be) => Ok(can_be),
        None => Err(AllocError),
    }
}

#[tactic(auto, unfolding(lt_tree::specs::Typing::Operations::judge_index))]
fn index(
    types: &mut Types,
    objects: &Objects,
    x: Box<Typed>,
    y: Box<Typed>,
) -> Result<Box<Judged>, AllocError>
    ensures widens { Widens types.old types.new }
    ensures made { IfOk result (λ j. Stays types.new.rows (λ longer. (known : Known) → known.model ≡ types.old.model → known.structs ≡ structs_at longer types.old → known.objects ≡ map (object_of longer) objects.now → judged_in longer j ≡ operations.judge_index (typed_in longer x) (typed_in longer y) known)) }
{
    let can_be = can_be_subscripted(types, &x, &y)?;
    let typed = subscript(types, objects, x, y)?;
    judgement_unless(types.alloc(), can_be, Rule::BadSum, typed)
}

/// `x[y]`.
pub fn judge_index(
    walker: &mut Walker,
    x: Box<Typed>,
    y: Box<Typed>,
) -> Result<Box<Judged>, TypeStop>
    ensures { Gives judged_in walker.old walker.new result (λ types. answering (λ known. operations.judge_index (typed_in types x) (typed_in types y) known)) }
{
    Ok(index(&mut walker.types, &walker.objects, x, y)?)
}
