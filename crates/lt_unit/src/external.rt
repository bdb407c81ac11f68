// Units, C11 6.9.

ghost use Rattle.std.specs.Prelude.{◌≡◌, ◌++◌, ◌∷◌, [], List, Some, map, option_map, unwrap_or, IfOk, OnOk};
ghost use Rattle.std.specs.List.{filter_map, cons_option};
ghost use Rattle.lt_tree.specs.Tree as c;
ghost use Rattle.lt_tree.specs.Records.{specifiers_of, declarator_of};
ghost use Rattle.lt_tree.specs.UnitView as source;
ghost use Rattle.lt_tree.specs.Typing.Types.{CType, Void};
ghost use Rattle.lt_tree.specs.Typing.TypeRows.{type_in};
ghost use Rattle.lt_tree.specs.Typing.StatementView as view;
ghost use Rattle.lt_tree.specs.Typing.StatementTyping as statements;
ghost use Rattle.lt_tree.specs.Typing.UnitTyping as typing;
ghost use Rattle.lt_table.specs.TableRows.{Stays};
ghost use Rattle.lt_env.specs.NamesValue.{frame_at};
ghost use Rattle.lt_env.specs.Going.{Gives, answering, done};
ghost use Rattle.lt_declare.specs.DeclaredViews.{declares_of, parameters_in};
ghost use Rattle.lt_unit.specs.UnitViews.{around_of};
ghost use Rattle.lt_unit.specs.Inside.{in_frame};
ghost use Rattle.lt_unit.specs.Elaborated.{Elaborated};

use crate::around::Around;
use crate::declaration::declaration;
use crate::declared::{add_function, declare_function};
use crate::items::items;
use crate::program::{at_start, program};
use lt_model::{DataModel, Name};
use lt_table::TypeTable;
use lt_tree::typed::{Function, Item as TypedItem, Program, TypeId};
use lt_tree::{Declaration, External, FunctionDefinition, Item, Unit};
use lt_type::{
    Declares, Judging, NameFrame, NameSet, Parameters, Setting, TypeStop, Walker, declarator,
    specifiers,
};
use std::alloc::{AllocError, Global};

/// The typed program of a unit in a data model, or the first rule that it breaks, with the number of the node in the walk of the unit, C11 6.5 to 6.9.
/// The program borrows the unit.
pub fn elaborate(alloc: Global, unit: &Unit, model: DataModel) -> Result<Program<'_>, TypeStop>
    ensures { Elaborated model unit.now result }
{
    let defined = defined_names(alloc, unit.externals.as_slice())?;
    let mut walker = at_start(alloc, model, defined)?;
    externals(&mut walker, unit.externals.as_slice())?;
    program(walker, unit)
}

// The names of the functions that have a body.
fn defined_names(alloc: Global, list: &[External]) -> Result<NameSet, AllocError>
    ensures { IfOk result (λ names. names ≡ filter_map typing.defined_in (map source.external_of list.now)) }
{
    let mut all = NameSet::new(alloc);
    'list: for x in list {
        add_defined(alloc, &mut all, x)?;
    }
    Ok(all)
}

fn add_defined(alloc: Global, all: &mut NameSet, x: &External) -> Result<(), AllocError>
    ensures { OnOk result (all.new ≡ all.old ++ filter_map typing.defined_in (source.external_of x.now ∷ [])) }
{
    match x {
        External::Declaration(_) => Ok(()),
        External::Function(f) => add_name(alloc, all, &f.declarator.name),
    }
}

fn add_name(alloc: Global, all: &mut NameSet, name: &Option<Name>) -> Result<(), AllocError>
    ensures { OnOk result (all.new ≡ all.old ++ cons_option name.now []) }
{
    match name {
        None => Ok(()),
        Some(name) => all.add(Name::new(alloc, name.as_slice())?),
    }
}

// Goes over what stands outside of functions.
fn externals(walker: &mut Walker, list: &[External]) -> Result<(), TypeStop>
    ensures { Gives done walker.old walker.new result (λ types. typing.externals (map source.external_of list.now)) }
{
    'list: for x in list {
        external(walker, x)?;
    }
    Ok(())
}

fn external(walker: &mut Walker, x: &External) -> Result<(), TypeStop>
    ensures { Gives done walker.old walker.new result (λ types. typing.external (source.external_of x.now)) }
{
    match x {
        External::Function(f) => definition(walker, f),
        External::Declaration(d) => outer_declaration(walker, d),
    }
}

// A declaration outside of functions.
fn outer_declaration(walker: &mut Walker, d: &Declaration) -> Result<(), TypeStop>
    ensures { Gives done walker.old walker.new result (λ types. typing.external (c.Declared (source.declaration_of d.now))) }
{
    let node = walker.enter()?;
    let it = declaration(walker, d)?;
    walker.settle(node, &it.faults)
}

// A function with its body.
fn definition(walker: &mut Walker, f: &FunctionDefinition) -> Result<(), TypeStop>
    ensures { Gives done walker.old walker.new result (λ types. typing.external (c.Defines (specifiers_of f.now.specifiers) (declarator_of f.now.declarator) (source.items_in f.now.body.items))) }
{
    let node = walker.enter()?;
    let it = specifiers(walker, &f.specifiers, Setting::Elsewhere)?;
    let judging = Judging::Definition { class: it.storage };
    let declared = declarator(walker, &f.declarator, &it, true, judging)?;
    defines(walker, node, declared, f.body.as_slice())
}

// A function is in scope in its own body, and its parameters are in the scope of the body's outermost block, C11 6.2.1p4.
fn defines(walker: &mut Walker, node: u32, it: Declares, body: &[Item]) -> Result<(), TypeStop>
    ensures { Gives done walker.old walker.new result (λ types. typing.defines node (unwrap_or it.name []) (declares_of types it) (source.items_in body.now)) }
{
    let name = name_of(walker.types.alloc(), it.name)?;
    let opening = opening_of(walker.types.alloc(), it.parameters);
    declare_function(walker, name.as_slice(), it.ty)?;
    let around = around_body(walker, it.ty)?;
    let body = within_frame(walker, opening.frame, body, around)?;
    add_function(
        walker,
        Function {
            node,
            name,
            ty: it.ty,
            parameters: opening.objects,
            body,
        },
    )
}

fn name_of(alloc: Global, name: Option<Name>) -> Result<Name, AllocError>
    ensures { IfOk result (λ it. it ≡ unwrap_or name []) }
{
    match name {
        Some(name) => Ok(name),
        None => Name::new(alloc, b"".as_slice()),
    }
}

/// What a body begins with: the names of the parameters and their objects.
#[derive(Drop)]
pub struct Opening {
    pub frame: NameFrame,
    pub objects: Vec<u32>,
}

fn opening_of(alloc: Global, parameters: Option<Box<Parameters>>) -> Opening
    ensures frame { (types : List CType) → frame_at types result.frame ≡ typing.frame_of (option_map (parameters_in types) parameters) }
    ensures objects { (types : List CType) → result.objects.items ≡ typing.objects_of (option_map (parameters_in types) parameters) }
{
    match parameters {
        None => Opening {
            frame: NameFrame::new(alloc),
            objects: Vec::new(alloc),
        },
        Some(them) => {
            let them = Box::into_inner(them);
            Opening {
                frame: them.frame,
                objects: them.objects,
            }
        }
    }
}

// What stands around the body of a function of this type.
fn around_body(walker: &mut Walker, t: TypeId) -> Result<Around, TypeStop>
    ensures { Gives around_of walker.old walker.new result (λ types. answering (λ known. typing.around_body (type_in types t))) }
{
    let returned = result_of(walker, t)?;
    Ok(Around {
        returned,
        in_loop: false,
        in_switch: false,
    })
}

fn result_of(walker: &mut Walker, t: TypeId) -> Result<TypeId, TypeStop>
    ensures { Gives type_in walker.old walker.new result (λ types. answering (λ known. typing.result_of (type_in types t))) }
{
    let found = function_result(walker.types.table(), t)?;
    match found {
        Some(u) => Ok(u),
        None => Ok(walker.types.void()?),
    }
}

fn function_result(table: &TypeTable, t: TypeId) -> Result<Option<TypeId>, AllocError>
    ensures { IfOk result (λ found. Stays table.now (λ types. unwrap_or (option_map (type_in types) found) Void ≡ typing.result_of (type_in types t))) }
{
    let Some(found) = table.function_of(t) else {
        return Err(AllocError);
    };
    match found {
        None => Ok(None),
        Some(f) => Ok(Some(f.result)),
    }
}

// The items of a body, where these names are in scope.
fn within_frame(
    walker: &mut Walker,
    frame: NameFrame,
    body: &[Item],
    around: Around,
) -> Result<Vec<TypedItem>, TypeStop>
    ensures { Gives (λ types made. view.items_in types made.items) walker.old walker.new result (λ types. in_frame (frame_at types frame) (statements.items (source.items_in body.now) (around_of types around))) }
{
    walker.open(frame)?;
    let made = items(walker, body, around)?;
    let _frame = walker.close();
    Ok(made)
}
