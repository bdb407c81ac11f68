// Declarations, C11 6.7.

ghost use Rattle.std.specs.Prelude.{◌≡◌, [], List, Option, Some, if◌then◌else◌, ◌++◌, map, option_map, is_some, IfOk, IfErr, OnOk};
ghost use Rattle.lt_tree.specs.Tree as c;
ghost use Rattle.lt_tree.specs.View.{expression_of};
ghost use Rattle.lt_tree.specs.Typing.Types.{CType};
ghost use Rattle.lt_tree.specs.Typing.StatementView.{start_of};
ghost use Rattle.lt_unit.specs.Inside.{start_end, declare_as};
ghost use Rattle.lt_tree.specs.Typing.TypeRows.{type_in};
ghost use Rattle.lt_tree.specs.UnitView as source;
ghost use Rattle.lt_tree.specs.Typing.EntityView.{life_of};
ghost use Rattle.lt_tree.specs.Typing.ValueView.{value_of};
ghost use Rattle.lt_tree.specs.Typing.TypedTree as e;
ghost use Rattle.lt_tree.specs.Typing.Steps.{gives};
ghost use Rattle.lt_tree.specs.Typing.Expressions as expressions;
ghost use Rattle.lt_table.specs.TableRows.{Stays};
ghost use Rattle.lt_table.specs.TypesValue.{Widens};
ghost use Rattle.lt_tree.specs.Typing.Specifying.{alone, elsewhere};
ghost use Rattle.lt_tree.specs.Typing.DeclarationTyping as typing;
ghost use Rattle.lt_tree.specs.Typing.StatementTyping as statements;
ghost use Rattle.lt_env.specs.declared.stop.TypeStop.TheVariants.{NoMemory};
ghost use Rattle.lt_env.specs.Going.{Gives, answering};
ghost use Rattle.lt_env.specs.Views.{typed_in};
ghost use Rattle.lt_declare.specs.DeclaredViews.{specified_of, setting_of, declares_of};
ghost use Rattle.lt_declare.specs.DeclaredKinds as kinds;
ghost use Rattle.lt_unit.specs.UnitViews.{locals_of, local_in, declared_locals_of, for_start_in, with_storage, started_of};

use crate::declared::{
    declare_function, declare_object, is_static, kind, start_object, type_of_object,
};
use crate::initialiser::{Started, object_initialiser, of_no_object};
use lt_model::Name;
use lt_table::Types;
use lt_tree::typed::{Entity, ForStart as TypedForStart, Life, Local, Start, TypeId, Value};
use lt_tree::{Declaration, Expr, ForStart, InitDeclarator, Initialiser, Storage};
use lt_type::{
    DeclaredKind, Declares, Faults, Judging, Setting, Specified, TypeStop, Typed, Use, Walker,
    declarator, expression, specifiers, value_in,
};
use std::alloc::{AllocError, Global};

/// The local objects of a declaration, and what it breaks that has no declarator.
#[derive(Drop)]
pub struct DeclaredLocals {
    pub locals: Vec<Local>,
    pub faults: Faults,
}

/// What stands before the first `;` of a `for`, and what it breaks.
#[derive(Drop)]
pub struct TypedStart {
    pub start: TypedForStart,
    pub faults: Faults,
}

/// Goes over a declaration.
pub fn declaration(walker: &mut Walker, d: &Declaration) -> Result<DeclaredLocals, TypeStop>
    ensures { Gives declared_locals_of walker.old walker.new result (λ types. typing.declaration (source.declaration_of d.now)) }
{
    let is_alone = has_no_declarator(d.declarators.as_slice());
    let it = specifiers(walker, &d.specifiers, setting(is_alone))?;
    let class = it.storage;
    let locals = init_declarators(walker, &it, class, d.declarators.as_slice())?;
    left_over(walker, it, is_alone, locals)
}

// A declaration in the head of a `for`, where only `static`, `typedef` and `register` have an effect.
fn declaration_in_for(walker: &mut Walker, d: &Declaration) -> Result<DeclaredLocals, TypeStop>
    ensures { Gives declared_locals_of walker.old walker.new result (λ types. typing.declaration_in_for (source.declaration_of d.now)) }
{
    let is_alone = has_no_declarator(d.declarators.as_slice());
    let it = specifiers(walker, &d.specifiers, setting(is_alone))?;
    let class = effective_in_for(it.storage);
    let locals = init_declarators(walker, &it, class, d.declarators.as_slice())?;
    left_over(walker, it, is_alone, locals)
}

// Where the specifiers of a declaration stand.
fn setting(is_alone: bool) -> Setting
    ensures { setting_of result ≡ (if is_alone then alone else elsewhere) }
{
    if is_alone {
        Setting::Alone
    } else {
        Setting::Elsewhere
    }
}

// Whether no declarator follows.
fn has_no_declarator(list: &[InitDeclarator]) -> bool
    ensures { result ≡ typing.has_no_declarator (map source.init_declarator_of list.now) }
{
    match list.split_first() {
        None => true,
        Some(_) => false,
    }
}

fn effective_in_for(class: Option<Storage>) -> Option<Storage>
    ensures { result ≡ typing.effective_in_for class }
{
    match class {
        Some(Storage::Static) => Some(Storage::Static),
        Some(Storage::Typedef) => Some(Storage::Typedef),
        Some(Storage::Register) => Some(Storage::Register),
        _ => None,
    }
}

// What a declaration declares; what its specifiers break counts here only where no declarator follows.
fn left_over(
    walker: &mut Walker,
    it: Specified,
    is_alone: bool,
    locals: Vec<Local>,
) -> Result<DeclaredLocals, TypeStop>
    ensures { Gives declared_locals_of walker.old walker.new result (λ types. answering (λ known. record { locals = locals_of types locals.items; faults = if is_alone then it.faults else [] })) }
{
    Ok(DeclaredLocals {
        locals,
        faults: faults_alone(walker.types.alloc(), is_alone, it.faults),
    })
}

fn faults_alone(alloc: Global, is_alone: bool, faults: Faults) -> Faults
    ensures { result ≡ (if is_alone then faults else []) }
{
    if is_alone { faults } else { Faults::new(alloc) }
}

// Goes over declarators with their initialisers, behind specifiers of which this storage class has an effect.
fn init_declarators(
    walker: &mut Walker,
    it: &Specified,
    class: Option<Storage>,
    list: &[InitDeclarator],
) -> Result<Vec<Local>, TypeStop>
    ensures { Gives (λ types locals. locals_of types locals.items) walker.old walker.new result (λ types. typing.init_declarators (with_storage class (specified_of types it.now)) (map source.init_declarator_of list.now)) }
{
    let mut all = Vec::new(walker.types.alloc());
    'more: for d in list {
        let local = init_declarator(walker, it, class, d)?;
        with_local(&mut all, local)?;
    }
    Ok(all)
}

// One more local object, if there is one.
fn with_local(all: &mut Vec<Local>, local: Option<Local>) -> Result<(), TypeStop>
    ensures added { OnOk result ((types : List CType) → locals_of types all.new.items ≡ locals_of types all.old.items ++ local_in types local) }
    ensures stops { IfErr result (λ stop. stop ≡ NoMemory) }
{
    match local {
        None => Ok(()),
        Some(local) => {
            all.push(local)?;
            Ok(())
        }
    }
}

// Goes over a declarator with its initialiser, if it has one.
fn init_declarator(
    walker: &mut Walker,
    it: &Specified,
    class: Option<Storage>,
    d: &InitDeclarator,
) -> Result<Option<Local>, TypeStop>
    ensures { Gives local_in walker.old walker.new result (λ types. typing.init_declarator (with_storage class (specified_of types it.now)) (source.init_declarator_of d.now)) }
{
    let judging = Judging::Declaration {
        class,
        has_initialiser: d.initialiser.is_some(),
    };
    let declared = declarator(walker, &d.declarator, it, false, judging)?;
    let kind = kind(walker, class, declared.ty)?;
    declare_as(walker, kind, &declared, &d.initialiser)
}

// What is so declared, if it has a name.
fn declare_as(
    walker: &mut Walker,
    kind: DeclaredKind,
    declared: &Declares,
    i: &Option<Initialiser>,
) -> Result<Option<Local>, TypeStop>
    ensures { Gives local_in walker.old walker.new result (λ types. declare_as (kinds.kind_in kind) (declares_of types declared.now) (option_map source.initialiser_of i.now)) }
{
    match &declared.name {
        None => of_no_object_or_none(walker, i),
        Some(name) => declare(walker, kind, declared.node, name.as_slice(), declared.ty, i),
    }
}

// A name is in scope from the end of its declarator, in its own initialiser too.
fn declare(
    walker: &mut Walker,
    kind: DeclaredKind,
    node: u32,
    name: &[u8],
    t: TypeId,
    i: &Option<Initialiser>,
) -> Result<Option<Local>, TypeStop>
    ensures { Gives local_in walker.old walker.new result (λ types. typing.declare (kinds.kind_in kind) node name.now (type_in types t) (option_map source.initialiser_of i.now)) }
{
    match kind {
        DeclaredKind::TypeName => {
            walker.bind(name, Entity::Typedef(t))?;
            of_no_object_or_none(walker, i)
        }
        DeclaredKind::Function => {
            declare_function(walker, name, t)?;
            of_no_object_or_none(walker, i)
        }
        DeclaredKind::Object { life, is_register } => {
            let number = declare_object(walker, life, is_register, node, name, t)?;
            started_object(walker, life, number, i)
        }
    }
}

// The initialiser of what is no object, if there is one.
fn of_no_object_or_none(
    walker: &mut Walker,
    i: &Option<Initialiser>,
) -> Result<Option<Local>, TypeStop>
    ensures { Gives local_in walker.old walker.new result (λ types. typing.no_object (option_map source.initialiser_of i.now)) }
{
    match i {
        None => Ok(None),
        Some(i) => {
            of_no_object(walker, i)?;
            Ok(None)
        }
    }
}

// An object with its initialiser, if it has one. The object's type is the composite of those of its declarations.
fn started_object(
    walker: &mut Walker,
    life: Life,
    number: u32,
    i: &Option<Initialiser>,
) -> Result<Option<Local>, TypeStop>
    ensures { Gives local_in walker.old walker.new result (λ types. typing.started_object (life_of life) number (option_map source.initialiser_of i.now)) }
{
    let is_there = is_static(life);
    match i {
        None => Ok(created(is_there, number, None)),
        Some(i) => {
            let t = type_of_object(walker, number)?;
            let started = object_initialiser(walker, is_there, t, i)?;
            end_start(walker, is_there, number, started)
        }
    }
}

// Where a local object is created; the others are there from the start.
fn created(is_there: bool, number: u32, start: Option<Start>) -> Option<Local>
    ensures { (types : List CType) → local_in types result ≡ typing.created is_there number (option_map (start_of types) start) }
{
    if is_there {
        None
    } else {
        Some(Local {
            object: number,
            start,
        })
    }
}

// An object starts so, from the start or where it is created.
fn end_start(
    walker: &mut Walker,
    is_there: bool,
    number: u32,
    started: Started,
) -> Result<Option<Local>, TypeStop>
    ensures { Gives local_in walker.old walker.new result (λ types. start_end is_there number (started_of types started)) }
{
    if is_there {
        start_object(walker, number, Some(started.start), started.ty)?;
        Ok(None)
    } else {
        start_object(walker, number, None, started.ty)?;
        Ok(created(false, number, Some(started.start)))
    }
}

/// Goes over what stands before the first `;` of a `for`.
pub fn for_start(walker: &mut Walker, start: &ForStart) -> Result<TypedStart, TypeStop>
    ensures { Gives for_start_in walker.old walker.new result (λ types. statements.for_start (source.start_of start.now)) }
{
    match start {
        ForStart::Nothing => nothing(walker),
        ForStart::Expression(e) => first(walker, e),
        ForStart::Declaration(d) => locals(walker, d),
    }
}

// Nothing stands there.
fn nothing(walker: &mut Walker) -> Result<TypedStart, TypeStop>
    ensures { Gives for_start_in walker.old walker.new result (λ types. statements.for_start c.Nothing) }
{
    Ok(TypedStart {
        start: TypedForStart::Nothing,
        faults: Faults::new(walker.types.alloc()),
    })
}

// An expression stands there.
fn first(walker: &mut Walker, e: &Expr) -> Result<TypedStart, TypeStop>
    ensures { Gives for_start_in walker.old walker.new result (λ types. statements.for_start (c.First (expression_of e.now))) }
{
    let it = expression(walker, e, Use::Value)?;
    first_end(walker, it)
}

fn first_end(walker: &mut Walker, it: Box<Typed>) -> Result<TypedStart, TypeStop>
    ensures { Gives for_start_in walker.old walker.new result (λ types. gives (record { start = e.First (expressions.value_in (typed_in types it)); faults = [] })) }
{
    let value = value_in(&mut walker.types, it)?;
    Ok(TypedStart {
        start: TypedForStart::First(value),
        faults: Faults::new(walker.types.alloc()),
    })
}

// A declaration stands there.
fn locals(walker: &mut Walker, d: &Declaration) -> Result<TypedStart, TypeStop>
    ensures { Gives for_start_in walker.old walker.new result (λ types. statements.for_start (c.Declares (source.declaration_of d.now))) }
{
    let it = declaration_in_for(walker, d)?;
    Ok(TypedStart {
        start: TypedForStart::Locals(it.locals),
        faults: it.faults,
    })
}
