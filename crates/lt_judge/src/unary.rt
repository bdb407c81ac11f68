// Operators on one operand, C11 6.5.2.4 and 6.5.3.

ghost use Rattle.std.specs.Prelude.{◌≡◌, ◌++◌, List, IfOk};
ghost use Rattle.lt_model.specs.declared.scalar.Scalar.TheVariants as scalars;
ghost use Rattle.lt_model.specs.Conversions.{promoted};
ghost use Rattle.lt_env.specs.Going.{Gives, answering};
ghost use Rattle.lt_env.specs.Views.{typed_of, typed_in, judged_in};
ghost use Rattle.lt_table.specs.TableRows.{Stays};
ghost use Rattle.lt_table.specs.TypesValue.{Widens, structs_at};
ghost use Rattle.lt_tree.specs.Typing.Types.{CType, Num, Pointer, is_integer, is_scalar, is_pointer, unqualified, value_type};
ghost use Rattle.lt_tree.specs.Typing.TypeRows.{type_in};
ghost use Rattle.lt_tree.specs.Typing.Rules.{unless, bad_sum};
ghost use Rattle.lt_tree.specs.Typing.TypedTree as tree;
ghost use Rattle.lt_tree.specs.Typing.Extents as extents;
ghost use Rattle.lt_tree.specs.Typing.ConstancyView.{constancy_of};
ghost use Rattle.lt_tree.specs.Typing.ValueView.{when_of, value_of, place_of};
ghost use Rattle.lt_tree.specs.Typing.Operands as operands;
ghost use Rattle.lt_tree.specs.Typing.Expressions as typing;
ghost use Rattle.lt_tree.specs.Typing.Operations as operations;
ghost use Rattle.lt_tree.specs.Typing.NodeEnds.{judge_unary};
ghost use Rattle.lt_tree.specs.Typing.Entities.{Known};

use crate::one_rule::{broken, judgement_unless};
use crate::shared::{
    converted_value, is_integer, is_pointer, is_scalar, judgement, target_size, write_faults,
};
use lt_env::values::{
    cast_to, constant, place_in, placed, scalar_in, target_in, value_in, valued, varies,
};
use lt_env::{Faults, Judged, TypeStop, Typed, Walker};
use lt_model::{Op, Scalar, promote, size_type};
use lt_table::{Types, complement, converted, negated, negative};
use lt_tree::UnaryOp;
use lt_tree::typed::{Constancy, Place, Rule, TypeId, Value, When, makes};
use std::alloc::AllocError;

/// `&x`, `*x`, `+x`, `-x`, `~x` and `!x`.
pub fn judge_unary(walker: &mut Walker, op: UnaryOp, x: Box<Typed>) -> Result<Box<Judged>, TypeStop>
    ensures { Gives judged_in walker.old walker.new result (λ types. answering (λ known. judge_unary op (typed_in types x) known)) }
{
    Ok(unary(&mut walker.types, op, x)?)
}

fn unary(types: &mut Types, op: UnaryOp, x: Box<Typed>) -> Result<Box<Judged>, AllocError>
    ensures widens { Widens types.old types.new }
    ensures made { IfOk result (λ j. Stays types.new.rows (λ longer. (known : Known) → known.model ≡ types.old.model → known.structs ≡ structs_at longer types.old → judged_in longer j ≡ judge_unary op (typed_in longer x) known)) }
{
    match op {
        UnaryOp::AddressOf => address_of(types, x),
        UnaryOp::Dereference => dereference(types, x),
        UnaryOp::Plus => plus(types, x),
        UnaryOp::Minus => minus(types, x),
        UnaryOp::Complement => turned(types, x),
        UnaryOp::Not => not(types, x),
    }
}

// Its integer type, promoted.
pub fn promoted_in(types: &Types, x: &Typed) -> Result<Scalar, AllocError>
    ensures { IfOk result (λ s. Stays types.now.rows (λ longer. s ≡ promoted types.now.model (typing.scalar_in (typed_of longer x.now)))) }
{
    let scalar = scalar_in(types, x)?;
    Ok(promote(types.model(), scalar))
}

// Its value, cast to this integer type.
fn cast_as(types: &mut Types, s: Scalar, x: Box<Typed>) -> Result<Box<Value>, AllocError>
    ensures widens { Widens types.old types.new }
    ensures made { IfOk result (λ v. Stays types.new.rows (λ longer. value_of longer v.value ≡ typing.cast_to (Num s) (typing.value_in (typed_in longer x)))) }
{
    let value = value_in(types, x)?;
    let t = types.num(s)?;
    cast_to(types, t, value)
}

// `+x` is a conversion to the promoted type.
#[tactic(auto, unfolding(lt_tree::specs::Typing::Operations::judge_plus))]
fn plus(types: &mut Types, x: Box<Typed>) -> Result<Box<Judged>, AllocError>
    ensures widens { Widens types.old types.new }
    ensures made { IfOk result (λ j. Stays types.new.rows (λ longer. (known : Known) → known.model ≡ types.old.model → judged_in longer j ≡ operations.judge_plus (typed_in longer x) known)) }
{
    let integer = is_integer(types, &x)?;
    let s = promoted_in(types, &x)?;
    let constancy = converted(types.model(), s, x.constancy);
    let erased = converted(types.model(), s, x.erased);
    let value = cast_as(types, s, x)?;
    let typed = valued(types.alloc(), value, constancy, erased)?;
    judgement_unless(types.alloc(), integer, Rule::OperandNotInteger, typed)
}

// Its value, converted to this integer type.
pub fn converted_as(types: &mut Types, s: Scalar, x: Box<Typed>) -> Result<Box<Value>, AllocError>
    ensures widens { Widens types.old types.new }
    ensures made { IfOk result (λ v. Stays types.new.rows (λ longer. value_of longer v.value ≡ typing.converted_to (Num s) (typing.value_in (typed_in longer x)))) }
{
    let t = types.num(s)?;
    converted_value(types, t, x)
}

// Its value in this integer type, with the sign turned.
fn minus_as(types: &mut Types, s: Scalar, x: Box<Typed>) -> Result<Box<Value>, AllocError>
    ensures widens { Widens types.old types.new }
    ensures made { IfOk result (λ v. Stays types.new.rows (λ longer. value_of longer v.value ≡ tree.Minus (Num s) (typing.converted_to (Num s) (typing.value_in (typed_in longer x))))) }
{
    let operand = converted_as(types, s, x)?;
    let t = types.num(s)?;
    makes::value::minus(types.alloc(), t, operand)
}

// `-x` is `0 - x` in the promoted type.
#[tactic(auto, unfolding(lt_tree::specs::Typing::Operations::judge_minus))]
fn minus(types: &mut Types, x: Box<Typed>) -> Result<Box<Judged>, AllocError>
    ensures widens { Widens types.old types.new }
    ensures made { IfOk result (λ j. Stays types.new.rows (λ longer. (known : Known) → known.model ≡ types.old.model → judged_in longer j ≡ operations.judge_minus (typed_in longer x) known)) }
{
    let integer = is_integer(types, &x)?;
    let s = promoted_in(types, &x)?;
    let constancy = negative(types.model(), s, x.constancy);
    let erased = negative(types.model(), s, x.erased);
    let value = minus_as(types, s, x)?;
    let typed = valued(types.alloc(), value, constancy, erased)?;
    judgement_unless(types.alloc(), integer, Rule::OperandNotInteger, typed)
}

// Its value in this integer type, with each bit turned.
fn complement_as(types: &mut Types, s: Scalar, x: Box<Typed>) -> Result<Box<Value>, AllocError>
    ensures widens { Widens types.old types.new }
    ensures made { IfOk result (λ v. Stays types.new.rows (λ longer. value_of longer v.value ≡ tree.Complement (Num s) (typing.converted_to (Num s) (typing.value_in (typed_in longer x))))) }
{
    let operand = converted_as(types, s, x)?;
    let t = types.num(s)?;
    makes::value::complement(types.alloc(), t, operand)
}

// `~x`, in the promoted type
#[tactic(auto, unfolding(lt_tree::specs::Typing::Operations::judge_complement))]
fn turned(types: &mut Types, x: Box<Typed>) -> Result<Box<Judged>, AllocError>
    ensures widens { Widens types.old types.new }
    ensures made { IfOk result (λ j. Stays types.new.rows (λ longer. (known : Known) → known.model ≡ types.old.model → judged_in longer j ≡ operations.judge_complement (typed_in longer x) known)) }
{
    let integer = is_integer(types, &x)?;
    let s = promoted_in(types, &x)?;
    let constancy = complement(types.model(), s, x.constancy);
    let erased = complement(types.model(), s, x.erased);
    let value = complement_as(types, s, x)?;
    let typed = valued(types.alloc(), value, constancy, erased)?;
    judgement_unless(types.alloc(), integer, Rule::OperandNotInteger, typed)
}

// `!x`
#[tactic(auto, unfolding(lt_tree::specs::Typing::Operations::judge_not))]
fn not(types: &mut Types, x: Box<Typed>) -> Result<Box<Judged>, AllocError>
    ensures widens { Widens types.old types.new }
    ensures made { IfOk result (λ j. Stays types.new.rows (λ longer. judged_in longer j ≡ operations.judge_not (typed_in longer x))) }
{
    let scalar = is_scalar(types, &x)?;
    let constancy = negated(x.constancy);
    let erased = negated(x.erased);
    let operand = value_in(types, x)?;
    let int = types.num(Scalar::Int)?;
    let value = makes::value::not(types.alloc(), int, operand)?;
    let typed = valued(types.alloc(), value, constancy, erased)?;
    judgement_unless(types.alloc(), scalar, Rule::NotScalar, typed)
}

// `&x`
#[tactic(auto, unfolding(lt_tree::specs::Typing::Operations::judge_address_of))]
fn address_of(types: &mut Types, x: Box<Typed>) -> Result<Box<Judged>, AllocError>
    ensures widens { Widens types.old types.new }
    ensures made { IfOk result (λ j. Stays types.new.rows (λ longer. judged_in longer j ≡ operations.judge_address_of (typed_in longer x))) }
{
    let addressed = x.is_lvalue() && !x.is_register;
    let constancy = x.constancy;
    let t = types.pointer(x.own_type())?;
    let place = place_in(types, x)?;
    let value = makes::value::address_of(types.alloc(), t, place)?;
    let typed = valued(types.alloc(), value, constancy, constancy)?;
    judgement_unless(types.alloc(), addressed, Rule::BadAddress, typed)
}

// Whether it is a pointer to a complete type.
fn points_to_complete(types: &Types, x: &Typed) -> Result<bool, AllocError>
    ensures { IfOk result (λ b. Stays types.now.rows (λ longer. b ≡ operands.points_to (extents.is_complete (structs_at longer types.now)) (typing.own_type (typed_of longer x.now)))) }
{
    match types.table().target_of(x.own_type()) {
        None => Err(AllocError),
        Some(None) => Ok(false),
        Some(Some(target)) => match types.is_complete(target) {
            None => Err(AllocError),
            Some(complete) => Ok(complete),
        },
    }
}

// A constant, where it is an address.
fn constant_address(c: Constancy) -> Constancy
    ensures { constancy_of result ≡ operations.constant_address (constancy_of c) }
{
    match c {
        Constancy::Address { object, offset } => Constancy::Address { object, offset },
        _ => Constancy::Varying,
    }
}

/// What it points to, as an expression.
pub fn pointed(types: &mut Types, x: Box<Typed>) -> Result<Box<Typed>, AllocError>
    ensures widens { Widens types.old types.new }
    ensures made { IfOk result (λ y. Stays types.new.rows (λ longer. typed_in longer y ≡ typing.placed (tree.Pointed (operations.target_in (typed_in longer x)) (typing.value_in (typed_in longer x))) (operations.constant_address (typing.Typed.constancy (typed_in longer x))))) }
{
    let constancy = constant_address(x.constancy);
    let t = target_in(types, &x)?;
    let value = value_in(types, x)?;
    let place = makes::place::pointed(types.alloc(), t, value)?;
    placed(types.alloc(), place, constancy)
}

// `*x`
#[tactic(auto, unfolding(lt_tree::specs::Typing::Operations::judge_dereference))]
fn dereference(types: &mut Types, x: Box<Typed>) -> Result<Box<Judged>, AllocError>
    ensures widens { Widens types.old types.new }
    ensures made { IfOk result (λ j. Stays types.new.rows (λ longer. (known : Known) → known.model ≡ types.old.model → known.structs ≡ structs_at longer types.old → judged_in longer j ≡ operations.judge_dereference (typed_in longer x) known)) }
{
    let complete = points_to_complete(types, &x)?;
    if !complete {
        return broken(types, Rule::BadAddress);
    }
    let typed = pointed(types, x)?;
    let alloc = types.alloc();
    judgement(alloc, Faults::new(alloc), typed)
}

// Whether it may be changed by adding and subtracting 1.
fn can_be_stepped(types: &mut Types, x: &Typed) -> Result<bool, AllocError>
    ensures widens { Widens types.old types.new }
    ensures made { IfOk result (λ b. Stays types.new.rows (λ longer. b ≡ operands.can_be_changed_by (structs_at longer types.new) (value_type (typing.own_type (typed_of longer x.now))) (Num scalars.Int))) }
{
    let t = types.value_type(x.own_type())?;
    let int = types.num(Scalar::Int)?;
    match types.can_be_changed_by(t, int) {
        Some(can_be) => Ok(can_be),
        None => Err(AllocError),
    }
}

// What `++` and `--` break.
fn step_faults(types: &mut Types, x: &Typed) -> Result<Faults, AllocError>
    ensures widens { Widens types.old types.new }
    ensures made { IfOk result (λ faults. Stays types.new.rows (λ longer. faults ≡ unless (operands.can_be_changed_by (structs_at longer types.new) (value_type (typing.own_type (typed_of longer x.now))) (Num scalars.Int)) bad_sum ++ operations.write_faults (structs_at longer types.new) (typed_of longer x.now))) }
{
    let can_be = can_be_stepped(types, x)?;
    let written = write_faults(types, x)?;
    let mut faults = Faults::new(types.alloc());
    faults.unless(can_be, Rule::BadSum)?;
    faults.append(written)?;
    Ok(faults)
}

// `++` and `--` on a pointer.
fn step_pointer(
    types: &mut Types,
    gives: When,
    op: Op,
    x: Box<Typed>,
) -> Result<Box<Value>, AllocError>
    ensures widens { Widens types.old types.new }
    ensures made { IfOk result (λ v. Stays types.new.rows (λ longer. value_of longer v.value ≡ tree.StepPointer (unqualified (typing.own_type (typed_in longer x))) (when_of gives) op (extents.size_of types.new.model (structs_at longer types.new) (operations.target_in (typed_in longer x))) (typing.place_in (typed_in longer x)))) }
{
    let Some(t) = types.table().unqualified(x.own_type()) else {
        return Err(AllocError);
    };
    let size = target_size(types, &x)?;
    let place = place_in(types, x)?;
    makes::value::step_pointer(types.alloc(), t, gives, op, size, place)
}

// `++` and `--` on an integer.
fn step_integer(
    types: &mut Types,
    gives: When,
    op: Op,
    x: Box<Typed>,
) -> Result<Box<Value>, AllocError>
    ensures widens { Widens types.old types.new }
    ensures made { IfOk result (λ v. Stays types.new.rows (λ longer. value_of longer v.value ≡ tree.Step (unqualified (typing.own_type (typed_in longer x))) (when_of gives) op (promoted types.new.model (typing.scalar_in (typed_in longer x))) (typing.place_in (typed_in longer x)))) }
{
    let s = promoted_in(types, &x)?;
    let t = types.unqualified(x.own_type())?;
    let place = place_in(types, x)?;
    makes::value::step(types.alloc(), t, gives, op, s, place)
}

// What `++` and `--` make.
fn stepped(types: &mut Types, gives: When, op: Op, x: Box<Typed>) -> Result<Box<Value>, AllocError>
    ensures widens { Widens types.old types.new }
    ensures made { IfOk result (λ v. Stays types.new.rows (λ longer. (known : Known) → known.model ≡ types.old.model → known.structs ≡ structs_at longer types.old → value_of longer v.value ≡ operations.stepped known (when_of gives) op (typed_in longer x))) }
{
    match types.table().is_pointer(x.own_type()) {
        None => Err(AllocError),
        Some(true) => step_pointer(types, gives, op, x),
        Some(false) => step_integer(types, gives, op, x),
    }
}

#[tactic(auto, unfolding(lt_tree::specs::Typing::Operations::judge_step))]
fn step(types: &mut Types, gives: When, op: Op, x: Box<Typed>) -> Result<Box<Judged>, AllocError>
    ensures widens { Widens types.old types.new }
    ensures made { IfOk result (λ j. Stays types.new.rows (λ longer. (known : Known) → known.model ≡ types.old.model → known.structs ≡ structs_at longer types.old → judged_in longer j ≡ operations.judge_step (when_of gives) op (typed_in longer x) known)) }
{
    let faults = step_faults(types, &x)?;
    let value = stepped(types, gives, op, x)?;
    let typed = varies(types.alloc(), value)?;
    judgement(types.alloc(), faults, typed)
}

/// `x++`, `x--`, `++x` and `--x`.
pub fn judge_step(
    walker: &mut Walker,
    gives: When,
    op: Op,
    x: Box<Typed>,
) -> Result<Box<Judged>, TypeStop>
    ensures { Gives judged_in walker.old walker.new result (λ types. answering (λ known. operations.judge_step (when_of gives) op (typed_in types x) known)) }
{
    Ok(step(&mut walker.types, gives, op, x)?)
}

#[tactic(auto, unfolding(lt_tree::specs::Typing::Operations::judge_size))]
fn size(types: &mut Types, t: TypeId) -> Result<Box<Judged>, AllocError>
    ensures widens { Widens types.old types.new }
    ensures made { IfOk result (λ j. Stays types.new.rows (λ longer. (known : Known) → known.model ≡ types.old.model → known.structs ≡ structs_at longer types.old → judged_in longer j ≡ operations.judge_size (type_in longer t) known)) }
{
    let Some(has_size) = types.has_size(t) else {
        return Err(AllocError);
    };
    let Some(size) = types.size_of(t) else {
        return Err(AllocError);
    };
    let typed = constant(types, size_type(types.model()), i128::from(size))?;
    judgement_unless(types.alloc(), has_size, Rule::NoSize, typed)
}

/// `sizeof` of a type.
pub fn judge_size(walker: &mut Walker, t: TypeId) -> Result<Box<Judged>, TypeStop>
    ensures { Gives judged_in walker.old walker.new result (λ types. answering (λ known. operations.judge_size (type_in types t) known)) }
{
    Ok(size(&mut walker.types, t)?)
}
