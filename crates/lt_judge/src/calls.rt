// Calls and casts, C11 6.5.2.2 and 6.5.4.

ghost use Rattle.std.specs.Prelude.{◌≡◌, ◌++◌, ◌&&◌, ◌||◌, List, length, slice_get, nat_le, ◌==◌, IfOk, option_map};
ghost use Rattle.lt_table.specs.TableRows.{Stays, IsFunctionOf};
ghost use Rattle.lt_table.specs.TypesValue.{Widens, structs_at};
ghost use Rattle.lt_tree.specs.Typing.Types.{CType, Function, unqualified};
ghost use Rattle.lt_tree.specs.Typing.TypeRows.{type_in, all_in};
ghost use Rattle.lt_tree.specs.Typing.TypedTree as tree;
ghost use Rattle.lt_tree.specs.Typing.Rules as rules;
ghost use Rattle.lt_tree.specs.Typing.ConstancyView.{constancy_of};
ghost use Rattle.lt_tree.specs.Typing.ValueView.{value_of, values_in};
ghost use Rattle.lt_tree.specs.Typing.Entities.{Known};
ghost use Rattle.lt_tree.specs.Typing.Operands as operands;
ghost use Rattle.lt_tree.specs.Typing.Expressions as typing;
ghost use Rattle.lt_tree.specs.Typing.Operations as operations;
ghost use Rattle.lt_judge.specs.Arguments.{fits_at, passed_at};
ghost use Rattle.lt_env.specs.Going.{Gives, answering};
ghost use Rattle.lt_env.specs.Views.{typed_of, typed_in, all_typed, judged_in};

use crate::one_rule::{broken, judgement_unless};
use crate::shared::{converted_value, fits, is_integer, judgement};
use crate::unary::{converted_as, promoted_in};
use lt_env::values::{cast_to, constancy_to, value_in, valued, varies};
use lt_env::{Faults, Form, Judged, NameSet, TypeStop, Typed, Walker};
use lt_model::Name;
use lt_table::Types;
use lt_tree::typed::{Constancy, FunctionType, Rule, TypeId, Value, makes};
use std::alloc::{AllocError, Global};

// ---- casts

// Whether it can be cast to this type.
fn can_be_cast(types: &Types, t: TypeId, x: &Typed) -> Result<bool, AllocError>
    ensures { IfOk result (λ b. Stays types.now.rows (λ longer. b ≡ operands.can_be_cast (type_in longer t) (typing.own_type (typed_of longer x.now)) (constancy_of x.now.constancy))) }
{
    match types.table().can_be_cast(t, x.own_type(), x.constancy) {
        Some(can_be) => Ok(can_be),
        None => Err(AllocError),
    }
}

// Its value, cast to this type.
fn cast_value(types: &mut Types, t: TypeId, x: Box<Typed>) -> Result<Box<Value>, AllocError>
    ensures widens { Widens types.old types.new }
    ensures made { IfOk result (λ v. Stays types.new.rows (λ longer. value_of longer v.value ≡ typing.cast_to (type_in longer t) (typing.value_in (typed_in longer x)))) }
{
    let value = value_in(types, x)?;
    cast_to(types, t, value)
}

// What it is as a constant of this type, with and without marks.
fn constancies_to(
    types: &mut Types,
    t: TypeId,
    x: &Typed,
) -> Result<(Constancy, Constancy), AllocError>
    ensures widens { Widens types.old types.new }
    ensures with { IfOk result (λ c. Stays types.new.rows (λ longer. constancy_of c.0 ≡ typing.constancy_to types.old.model (type_in longer t) (constancy_of x.now.constancy))) }
    ensures without { IfOk result (λ c. Stays types.new.rows (λ longer. constancy_of c.1 ≡ typing.constancy_to types.old.model (type_in longer t) (constancy_of x.now.erased))) }
{
    let constancy = constancy_to(types, t, x.constancy)?;
    let erased = constancy_to(types, t, x.erased)?;
    Ok((constancy, erased))
}

// An expression cast to this type.
fn cast_typed(types: &mut Types, t: TypeId, x: Box<Typed>) -> Result<Box<Typed>, AllocError>
    ensures widens { Widens types.old types.new }
    ensures made { IfOk result (λ y. Stays types.new.rows (λ longer. typed_in longer y ≡ typing.valued (typing.cast_to (type_in longer t) (typing.value_in (typed_in longer x))) (typing.constancy_to types.old.model (type_in longer t) (typing.Typed.constancy (typed_in longer x))) (typing.constancy_to types.old.model (type_in longer t) (typing.Typed.erased (typed_in longer x))))) }
{
    let (constancy, erased) = constancies_to(types, t, &x)?;
    let value = cast_value(types, t, x)?;
    valued(types.alloc(), value, constancy, erased)
}

#[tactic(auto, unfolding(lt_tree::specs::Typing::Operations::judge_cast))]
fn cast(types: &mut Types, t: TypeId, x: Box<Typed>) -> Result<Box<Judged>, AllocError>
    ensures widens { Widens types.old types.new }
    ensures made { IfOk result (λ j. Stays types.new.rows (λ longer. (known : Known) → known.model ≡ types.old.model → judged_in longer j ≡ operations.judge_cast (type_in longer t) (typed_in longer x) known)) }
{
    let can_be = can_be_cast(types, t, &x)?;
    let Some(bare) = types.table().unqualified(t) else {
        return Err(AllocError);
    };
    let typed = cast_typed(types, bare, x)?;
    judgement_unless(types.alloc(), can_be, Rule::BadCast, typed)
}

/// `(t)x`.
pub fn judge_cast(walker: &mut Walker, t: TypeId, x: Box<Typed>) -> Result<Box<Judged>, TypeStop>
    ensures { Gives judged_in walker.old walker.new result (λ types. answering (λ known. operations.judge_cast (type_in types t) (typed_in types x) known)) }
{
    Ok(cast(&mut walker.types, t, x)?)
}

// ---- arguments

// Whether an argument fits its parameter, or is a value behind the parameters.
fn fits_at(types: &Types, parameter: Option<TypeId>, x: &Typed) -> Result<bool, AllocError>
    ensures { IfOk result (λ b. Stays types.now.rows (λ longer. b ≡ fits_at (option_map (type_in longer) parameter) (typed_of longer x.now))) }
{
    match parameter {
        Some(t) => fits(types, t, x),
        None => match types.table().is_void(x.own_type()) {
            Some(is_void) => Ok(!is_void),
            None => Err(AllocError),
        },
    }
}

// Whether an argument fits too.
fn fits_also(
    types: &Types,
    before: bool,
    parameter: Option<TypeId>,
    x: &Typed,
) -> Result<bool, AllocError>
    ensures { IfOk result (λ b. Stays types.now.rows (λ longer. b ≡ (before && fits_at (option_map (type_in longer) parameter) (typed_of longer x.now)))) }
{
    let fits = fits_at(types, parameter, x)?;
    Ok(before && fits)
}

// The value of an argument behind the parameters.
fn promoted_argument(types: &mut Types, x: Box<Typed>) -> Result<Box<Value>, AllocError>
    ensures widens { Widens types.old types.new }
    ensures made { IfOk result (λ v. Stays types.new.rows (λ longer. value_of longer v.value ≡ operations.promoted_argument types.old.model (typed_in longer x))) }
{
    if is_integer(types, &x)? {
        let s = promoted_in(types, &x)?;
        converted_as(types, s, x)
    } else {
        value_in(types, x)
    }
}

// What is passed for an argument.
fn passed_at(
    types: &mut Types,
    parameter: Option<TypeId>,
    x: Box<Typed>,
) -> Result<Box<Value>, AllocError>
    ensures widens { Widens types.old types.new }
    ensures made { IfOk result (λ v. Stays types.new.rows (λ longer. value_of longer v.value ≡ passed_at types.old.model (option_map (type_in longer) parameter) (typed_in longer x))) }
{
    match parameter {
        Some(t) => converted_value(types, t, x),
        None => promoted_argument(types, x),
    }
}

fn parameter_at(parameters: &[TypeId], place: usize) -> Option<TypeId>
    ensures { result ≡ slice_get parameters.now place }
{
    parameters.get(place).copied()
}

// What is passed for all arguments of a call, and whether each fits.
#[derive(Drop)]
struct Arguments {
    values: Vec<Value>,
    fit: bool,
}

fn all_passed(
    types: &mut Types,
    xs: Vec<Box<Typed>>,
    parameters: &[TypeId],
) -> Result<Arguments, AllocError>
    ensures widens { Widens types.old types.new }
    ensures values { IfOk result (λ p. Stays types.new.rows (λ longer. values_in longer p.values.items ≡ operations.passed types.old.model (all_typed longer xs.items) (all_in longer parameters.now))) }
    ensures fit { IfOk result (λ p. Stays types.new.rows (λ longer. p.fit ≡ operations.all_fit (all_typed longer xs.items) (all_in longer parameters.now))) }
{
    let mut values = Vec::new(types.alloc());
    let mut fit = true;
    for x in xs {
        let parameter = parameter_at(parameters, values.len());
        fit = fits_also(types, fit, parameter, &x)?;
        let value = passed_at(types, parameter, x)?;
        values.push(Box::into_inner(value))?;
    }
    Ok(Arguments { values, fit })
}

// ---- functions

// Whether a type is a floating one or an array of such, and whether it is a pointer to a function or an array of such: of neither a value is read.
#[derive(Clone, Copy, PartialEq, Eq, Debug)]
struct Unread {
    floating: bool,
    function: bool,
}

fn unread_in(types: &Types, t: TypeId) -> Result<Unread, AllocError>
    ensures floating { IfOk result (λ u. Stays types.now.rows (λ longer. u.floating ≡ typing.has_floating (type_in longer t))) }
    ensures function { IfOk result (λ u. Stays types.now.rows (λ longer. u.function ≡ typing.has_pointer_to_function (type_in longer t))) }
{
    let table = types.table();
    let Some(element) = table.element(t) else {
        return Err(AllocError);
    };
    let Some(floating) = table.is_floating(element) else {
        return Err(AllocError);
    };
    let Some(function) = table.is_pointer_to_function(element) else {
        return Err(AllocError);
    };
    Ok(Unread { floating, function })
}

fn either(a: bool, b: bool) -> bool
    ensures { result ≡ (a || b) }
{
    a || b
}

// Whether one of these types is such a type.
fn unread_among(types: &Types, ts: &[TypeId]) -> Result<Unread, AllocError>
    ensures floating { IfOk result (λ u. Stays types.now.rows (λ longer. u.floating ≡ operations.has_type typing.has_floating (all_in longer ts.now))) }
    ensures function { IfOk result (λ u. Stays types.now.rows (λ longer. u.function ≡ operations.has_type typing.has_pointer_to_function (all_in longer ts.now))) }
{
    let mut floating = false;
    let mut function = false;
    for t in ts {
        let this = unread_in(types, *t)?;
        floating = either(floating, this.floating);
        function = either(function, this.function);
    }
    Ok(Unread { floating, function })
}

// Whether a function takes or gives such a type.
fn taken_or_given(types: &Types, f: &FunctionType) -> Result<Unread, AllocError>
    ensures floating { IfOk result (λ u. Stays types.now.rows (λ longer. u.floating ≡ operations.takes_or_gives typing.has_floating (type_in longer f.now.result) (all_in longer f.now.parameters.items))) }
    ensures function { IfOk result (λ u. Stays types.now.rows (λ longer. u.function ≡ operations.takes_or_gives typing.has_pointer_to_function (type_in longer f.now.result) (all_in longer f.now.parameters.items))) }
{
    let given = unread_in(types, f.result)?;
    let taken = unread_among(types, f.parameters.as_slice())?;
    Ok(Unread {
        floating: either(given.floating, taken.floating),
        function: either(given.function, taken.function),
    })
}

// Whether it stops a run.
fn is_stopping(name: &[u8]) -> bool
    ensures { result ≡ operations.is_among name.now operations.stopping }
{
    name == b"abort".as_slice()
        || name == b"exit".as_slice()
        || name == b"_Exit".as_slice()
        || name == b"__assert_fail".as_slice()
}

// Whether it has to do with memory or jumps.
fn is_never_called(name: &[u8]) -> bool
    ensures { result ≡ operations.is_among name.now operations.never_called }
{
    name == b"malloc".as_slice()
        || name == b"calloc".as_slice()
        || name == b"realloc".as_slice()
        || name == b"free".as_slice()
        || name == b"setjmp".as_slice()
        || name == b"longjmp".as_slice()
}

// Whether a function has a body, or can be run without.
fn can_be_run(
    types: &Types,
    defined: &NameSet,
    name: &[u8],
    returned: TypeId,
) -> Result<bool, AllocError>
    ensures { IfOk result (λ b. Stays types.now.rows (λ longer. (known : Known) → known.defined ≡ defined.now → b ≡ operations.can_be_run known name.now (type_in longer returned))) }
{
    let Some(is_void) = types.table().is_void(returned) else {
        return Err(AllocError);
    };
    let Some(is_integer) = types.table().is_integer(returned) else {
        return Err(AllocError);
    };
    let has_body = defined.has(name);
    let stopping = is_stopping(name);
    let never_called = is_never_called(name);
    Ok(has_body || ((is_void || is_integer || stopping) && !never_called))
}

// Whether so many arguments are right for so many parameters.
fn is_right_number(number: usize, count: usize, dots: bool) -> bool
    ensures { result ≡ ((number == count) || (dots && nat_le count number)) }
{
    number == count || (dots && count <= number)
}

// The rules that a call breaks, by what breaks them.
fn faults_of(
    alloc: Global,
    unread: Unread,
    fit: bool,
    is_right_number: bool,
    can_be_run: bool,
) -> Result<Faults, AllocError>
    ensures { IfOk result (λ faults. faults ≡ rules.broken_if rules.floating_type unread.floating ++ rules.broken_if rules.function_as_value unread.function ++ rules.unless fit rules.bad_assignment ++ rules.unless is_right_number rules.bad_call ++ rules.unless can_be_run rules.no_body) }
{
    let mut faults = Faults::new(alloc);
    faults.broken_if(Rule::FloatingType, unread.floating)?;
    faults.broken_if(Rule::FunctionAsValue, unread.function)?;
    faults.unless(fit, Rule::BadAssignment)?;
    faults.unless(is_right_number, Rule::BadCall)?;
    faults.unless(can_be_run, Rule::NoBody)?;
    Ok(faults)
}

// The rules that a call breaks, of which so many arguments are passed.
fn call_faults(
    types: &Types,
    defined: &NameSet,
    name: &[u8],
    f: &FunctionType,
    number: usize,
    fit: bool,
) -> Result<Faults, AllocError>
    ensures { IfOk result (λ faults. Stays types.now.rows (λ longer. (known : Known) → known.defined ≡ defined.now → faults ≡ rules.broken_if rules.floating_type (operations.takes_or_gives typing.has_floating (type_in longer f.now.result) (all_in longer f.now.parameters.items)) ++ rules.broken_if rules.function_as_value (operations.takes_or_gives typing.has_pointer_to_function (type_in longer f.now.result) (all_in longer f.now.parameters.items)) ++ rules.unless fit rules.bad_assignment ++ rules.unless (operations.is_right_number number (all_in longer f.now.parameters.items) f.now.dots) rules.bad_call ++ rules.unless (operations.can_be_run known name.now (type_in longer f.now.result)) rules.no_body)) }
{
    let unread = taken_or_given(types, f)?;
    let right = is_right_number(number, f.parameters.len(), f.dots);
    let run = can_be_run(types, defined, name, f.result)?;
    faults_of(types.alloc(), unread, fit, right, run)
}

// The value of a call.
fn call_value(
    types: &Types,
    returned: TypeId,
    name: Name,
    arguments: Vec<Value>,
) -> Result<Box<Typed>, AllocError>
    ensures { IfOk result (λ x. Stays types.now.rows (λ longer. typed_in longer x ≡ typing.varies (tree.Call (unqualified (type_in longer returned)) name (values_in longer arguments.items)))) }
{
    let Some(t) = types.table().unqualified(returned) else {
        return Err(AllocError);
    };
    let value = makes::value::call(types.alloc(), t, name, arguments)?;
    varies(types.alloc(), value)
}

// A call of a function of this type.
fn called(
    types: &mut Types,
    defined: &NameSet,
    name: Name,
    f: &FunctionType,
    xs: Vec<Box<Typed>>,
) -> Result<Box<Judged>, AllocError>
    ensures widens { Widens types.old types.new }
    ensures made { IfOk result (λ j. Stays types.new.rows (λ longer. (known : Known) → known.model ≡ types.old.model → known.defined ≡ defined.now → judged_in longer j ≡ operations.judge_function known name (Function (type_in longer f.now.result) (all_in longer f.now.parameters.items) f.now.dots) (all_typed longer xs.items))) }
{
    let number = xs.len();
    let arguments = all_passed(types, xs, f.parameters.as_slice())?;
    let faults = call_faults(types, defined, name.as_slice(), f, number, arguments.fit)?;
    let typed = call_value(types, f.result, name, arguments.values)?;
    judgement(types.alloc(), faults, typed)
}

// What a function takes and gives.
fn function_of(types: &Types, t: TypeId) -> Result<Option<FunctionType>, AllocError>
    ensures { IfOk result (IsFunctionOf types.now.rows t) }
{
    match types.table().function_of(t) {
        None => Err(AllocError),
        Some(None) => Ok(None),
        Some(Some(f)) => Ok(Some(FunctionType {
            result: f.result,
            parameters: Vec::from_slice(types.alloc(), f.parameters.as_slice())?,
            dots: f.dots,
        })),
    }
}

// A call of what has this type.
fn function(
    types: &mut Types,
    defined: &NameSet,
    name: Name,
    t: TypeId,
    xs: Vec<Box<Typed>>,
) -> Result<Box<Judged>, AllocError>
    ensures widens { Widens types.old types.new }
    ensures made { IfOk result (λ j. Stays types.new.rows (λ longer. (known : Known) → known.model ≡ types.old.model → known.defined ≡ defined.now → judged_in longer j ≡ operations.judge_function known name (type_in longer t) (all_typed longer xs.items))) }
{
    match function_of(types, t)? {
        None => broken(types, Rule::BadCall),
        Some(f) => called(types, defined, name, &f, xs),
    }
}

#[tactic(auto, unfolding(lt_tree::specs::Typing::Operations::judge_call))]
fn call(
    types: &mut Types,
    defined: &NameSet,
    f: Box<Typed>,
    xs: Vec<Box<Typed>>,
) -> Result<Box<Judged>, AllocError>
    ensures widens { Widens types.old types.new }
    ensures made { IfOk result (λ j. Stays types.new.rows (λ longer. (known : Known) → known.model ≡ types.old.model → known.defined ≡ defined.now → judged_in longer j ≡ operations.judge_call (typed_in longer f) (all_typed longer xs.items) known)) }
{
    let Typed { form, .. } = Box::into_inner(f);
    match form {
        Form::Designator(name, t) => function(types, defined, name, t, xs),
        _ => broken(types, Rule::BadCall),
    }
}

/// `f(..)`.
pub fn judge_call(
    walker: &mut Walker,
    f: Box<Typed>,
    xs: Vec<Box<Typed>>,
) -> Result<Box<Judged>, TypeStop>
    ensures { Gives judged_in walker.old walker.new result (λ types. answering (λ known. operations.judge_call (typed_in types f) (all_typed types xs.items) known)) }
{
    Ok(call(&mut walker.types, &walker.defined, f, xs)?)
}
