//! What declarations make known: the types of expressions beside them, and the layouts of structs.

use crate::stop::Stop;
use crate::table::put_type;
use crate::units::parsed;
use crate::words::Words;
use lt_model::{DataModel, Name};
use lt_table::Types;
use lt_tree::typed::{Entity, Life, Object, StructType};
use lt_tree::{Declaration, Expr, External, Item, Stmt, Unit};
use lt_type::{
    Bodies, Declarations, Declares, Judging, Labels, NameFrame, NameSet, Names, Objects, Setting,
    TypeStop, Walker, declarator, specifiers, type_of,
};
use lt_unit::elaborate;
use std::alloc::Global;

// What is known where nothing is declared.
fn nothing_known(alloc: Global, model: DataModel) -> Result<Walker, TypeStop> {
    let mut walker = Walker {
        types: Types::new(alloc, model),
        defined: NameSet::new(alloc),
        next: 0,
        is_unmarked: false,
        names: Names::new(alloc),
        objects: Objects::new(alloc),
        declared: Declarations::new(alloc),
        functions: Bodies::new(alloc),
        labels: Labels::new(alloc),
        facts: Vec::new(alloc),
    };
    walker.open(NameFrame::new(alloc))?;
    Ok(walker)
}

// Makes known what a declarator at file scope declares: a function or an object.
fn bind(alloc: Global, walker: &mut Walker, it: &Declares) -> Result<(), TypeStop> {
    let Some(name) = &it.name else {
        return Ok(());
    };
    if walker.types.table().is_function(it.ty) == Some(true) {
        walker.declared.declare(name.as_slice(), it.ty)?;
        return walker.bind(name.as_slice(), Entity::Function);
    }
    let number = walker.add_object(Object {
        node: it.node,
        name: Name::new(alloc, name.as_slice())?,
        ty: it.ty,
        life: Life::Linked,
        start: None,
    })?;
    let entity = Entity::Object {
        number,
        is_register: false,
    };
    walker.bind(name.as_slice(), entity)
}

fn declare(alloc: Global, walker: &mut Walker, d: &Declaration) -> Result<(), TypeStop> {
    let setting = if d.declarators.is_empty() {
        Setting::Alone
    } else {
        Setting::Elsewhere
    };
    let it = specifiers(walker, &d.specifiers, setting)?;
    for d in &d.declarators {
        let judging = Judging::Declaration {
            class: None,
            has_initialiser: d.initialiser.is_some(),
        };
        let declared = declarator(walker, &d.declarator, &it, false, judging)?;
        bind(alloc, walker, &declared)?;
    }
    Ok(())
}

// What is known behind the declarations of a unit.
fn known(alloc: Global, unit: &Unit, model: DataModel) -> Result<Walker, TypeStop> {
    let mut walker = nothing_known(alloc, model)?;
    for external in &unit.externals {
        if let External::Declaration(d) = external {
            declare(alloc, &mut walker, d)?;
        }
    }
    Ok(walker)
}

// The expression that the last function gives, whose body is a `return` alone.
fn given(unit: &Unit) -> Option<&Expr> {
    match unit.externals.last() {
        Some(External::Function(f)) => match f.body.first() {
            Some(Item::Statement(Stmt::Return(Some(e)))) => Some(e),
            _ => None,
        },
        _ => None,
    }
}

/// The type of an expression beside declarations.
pub fn type_in(
    alloc: Global,
    expression: &[u8],
    beside: &[u8],
    model: DataModel,
) -> Result<Vec<u8>, Stop> {
    let mut text = Vec::from_slice(alloc, beside)?;
    text.extend_from_slice(b"int f(void) { return ")?;
    text.extend_from_slice(expression)?;
    text.extend_from_slice(b"; }")?;
    let unit = parsed(alloc, text.as_slice())?.unit;
    let e = given(&unit).ok_or(Stop::Syntax)?;
    let mut walker = known(alloc, &unit, model)?;
    let t = type_of(&mut walker, e)?;
    let (rows, _) = walker.types.into_parts()?;
    let mut words = Words::new(alloc);
    put_type(&mut words, rows.as_slice(), t)?;
    Ok(words.into_bytes())
}

// The size of a struct, and the offset of each member by its name.
fn put_layout(
    words: &mut Words,
    types: &mut Types,
    number: u32,
    it: &StructType,
) -> Result<(), Stop> {
    let t = types.structure(number)?;
    let Some(members) = &it.members else {
        words.push_text("incomplete")?;
        return Ok(());
    };
    if let Some(size) = types.size_of(t) {
        words.push_number(i128::from(size))?;
    }
    for member in members {
        words.push(&[member.name.as_slice()])?;
        if let Some((_, offset)) = types.member_of(number, member.name.as_slice()) {
            words.push_number(i128::from(offset))?;
        }
    }
    Ok(())
}

/// The layout of each struct of a unit.
pub fn layouts(alloc: Global, text: &[u8], model: DataModel) -> Result<Vec<u8>, Stop> {
    let unit = parsed(alloc, text)?.unit;
    let mut types = known(alloc, &unit, model)?.types;
    let program = elaborate(alloc, &unit, model)?;
    let mut words = Words::new(alloc);
    let mut number = 0_u32;
    for it in &program.structs {
        put_layout(&mut words, &mut types, number, it)?;
        words.end_part()?;
        number = number.saturating_add(1);
    }
    Ok(words.into_bytes())
}
