// Structs by their tags and with their members, C11 6.7.2.1 and 6.7.2.3.

ghost use Rattle.std.specs.Prelude.{◌≡◌, ◌∷◌, [], List, Some, None, option_map, IfOk, if◌then◌else◌};
ghost use Rattle.lt_tree.specs.Typing.Types.{CType, Struct};
ghost use Rattle.lt_tree.specs.Typing.EntityView.{tagged_of};
ghost use Rattle.lt_tree.specs.Typing.Entities.{tagged_in, tag_here};
ghost use Rattle.lt_tree.specs.Typing.Rules.{declared_twice};
ghost use Rattle.lt_tree.specs.Typing.Specifying as typing;
ghost use Rattle.lt_env.specs.NamesValue.{frames_at};
ghost use Rattle.lt_env.specs.Going.{Gives, answering, itself, done, known_of};
ghost use Rattle.lt_declare.specs.DeclaredViews.{members_in, naming_of, open_struct_of, setting_of};
ghost use Rattle.lt_env.specs.declared.stop.TypeStop.TheVariants.{NoMemory};
ghost use Rattle.lt_declare.specs.Declaring.{completing, closed};

use crate::enums::enum_named;
use crate::made::{Naming, OpenStruct, Setting};
use crate::members::OpenMembers;
use crate::specifiers::{is_alone, names};
use lt_env::{Faults, TypeStop, Walker};
use lt_model::Name;
use lt_tree::typed::{Member, Rule, Tagged};
use std::alloc::AllocError;

/// `struct s`: the struct that is visible, or a new one.
pub fn struct_by_tag(walker: &mut Walker, setting: Setting, tag: &[u8]) -> Result<Naming, TypeStop>
    ensures { Gives naming_of walker.old walker.new result (λ types. typing.struct_by_tag (setting_of setting) tag.now) }
{
    match tag_found(walker, setting, tag) {
        None => new_struct(walker, tag),
        Some(Tagged::Struct(number)) => struct_named(walker, number),
        Some(Tagged::Enum(_)) => {
            let faults = declared_twice(walker)?;
            enum_named(walker, faults)
        }
    }
}

// What a tag stands for, in the innermost frame where its declaration is of nothing else, or in any.
fn tag_found(walker: &Walker, setting: Setting, tag: &[u8]) -> Option<Tagged>
    ensures { (types : List CType) → option_map tagged_of result ≡ (if typing.is_alone (setting_of setting) then tag_here tag.now (known_of types walker.now) else tagged_in tag.now (frames_at types walker.now.names)) }
{
    if is_alone(setting) {
        walker.names.find_tag_here(tag)
    } else {
        walker.names.find_tag(tag)
    }
}

fn declared_twice(walker: &Walker) -> Result<Faults, AllocError>
    ensures { IfOk result (λ faults. faults ≡ declared_twice ∷ []) }
{
    let mut faults = Faults::new(walker.types.alloc());
    faults.broken_if(Rule::DeclaredTwice, true)?;
    Ok(faults)
}

fn struct_named(walker: &mut Walker, number: u32) -> Result<Naming, TypeStop>
    ensures { Gives naming_of walker.old walker.new result (λ types. answering (λ known. typing.names (Struct number))) }
{
    let ty = walker.types.structure(number)?;
    Ok(names(walker, ty))
}

// One more struct, which is incomplete.
fn add_struct(walker: &mut Walker) -> Result<u32, TypeStop>
    ensures { Gives itself walker.old walker.new result (λ types. typing.add_struct) }
{
    let number = walker.types.add_struct()?;
    Ok(number)
}

// A new struct that a tag names from here on.
fn new_struct(walker: &mut Walker, tag: &[u8]) -> Result<Naming, TypeStop>
    ensures { Gives naming_of walker.old walker.new result (λ types. typing.new_struct tag.now) }
{
    let number = add_struct(walker)?;
    walker.bind_tag(tag, Tagged::Struct(number))?;
    struct_named(walker, number)
}

/// `struct s {`: an incomplete struct of this tag in this scope, or a new one.
pub fn open_struct(walker: &mut Walker, tag: &Option<Name>) -> Result<OpenStruct, TypeStop>
    ensures { Gives open_struct_of walker.old walker.new result (λ types. typing.open_struct tag.now) }
{
    let alloc = walker.types.alloc();
    match tag {
        None => open_new(walker, Faults::new(alloc)),
        Some(tag) => open_tagged(walker, tag.as_slice()),
    }
}

fn open_tagged(walker: &mut Walker, tag: &[u8]) -> Result<OpenStruct, TypeStop>
    ensures { Gives open_struct_of walker.old walker.new result (λ types known. typing.open_tagged tag.now (tag_here tag.now known) known) }
{
    let alloc = walker.types.alloc();
    match walker.names.find_tag_here(tag) {
        None => open_new_tagged(walker, tag),
        Some(Tagged::Struct(number)) => Ok(OpenStruct {
            number,
            faults: Faults::new(alloc),
        }),
        Some(Tagged::Enum(_)) => {
            let faults = declared_twice(walker)?;
            open_new(walker, faults)
        }
    }
}

// A struct without a tag, or whose tag breaks these rules.
fn open_new(walker: &mut Walker, faults: Faults) -> Result<OpenStruct, TypeStop>
    ensures { Gives open_struct_of walker.old walker.new result (λ types. typing.open_new None faults) }
{
    let number = add_struct(walker)?;
    Ok(OpenStruct { number, faults })
}

// A struct that a tag names from here on.
fn open_new_tagged(walker: &mut Walker, tag: &[u8]) -> Result<OpenStruct, TypeStop>
    ensures { Gives open_struct_of walker.old walker.new result (λ types. typing.open_new (Some tag.now) []) }
{
    let number = add_struct(walker)?;
    walker.bind_tag(tag, Tagged::Struct(number))?;
    Ok(OpenStruct {
        number,
        faults: Faults::new(walker.types.alloc()),
    })
}

/// `}`: the struct is complete, unless it was before.
pub fn close_struct(
    walker: &mut Walker,
    opened: OpenStruct,
    members: OpenMembers,
) -> Result<Naming, TypeStop>
    ensures { Gives naming_of walker.old walker.new result (λ types. typing.close_struct (open_struct_of types opened) (members_in types members)) }
{
    let number = opened.number;
    let members = members.into_list();
    let faults = struct_faults(walker, opened, &members)?;
    complete(walker, number, members)?;
    closed(walker, number, faults)
}

// What a struct breaks before it is complete.
fn struct_faults(
    walker: &Walker,
    opened: OpenStruct,
    members: &[Member],
) -> Result<Faults, AllocError>
    ensures { IfOk result (λ faults. (types : List CType) → faults ≡ typing.struct_faults (known_of types walker.now) (open_struct_of types opened) (members_in types members.now)) }
{
    let is_complete = walker.types.is_struct_complete(opened.number);
    let mut faults = opened.faults;
    faults.broken_if(Rule::DeclaredTwice, is_complete)?;
    faults.broken_if(Rule::IncompleteType, members.is_empty())?;
    Ok(faults)
}

// A struct that isn't complete has these members.
fn complete(walker: &mut Walker, number: u32, members: Vec<Member>) -> Result<(), TypeStop>
    ensures { Gives done walker.old walker.new result (λ types. completing number (members_in types members.items)) }
{
    if walker.types.is_struct_complete(number) {
        return Ok(());
    }
    walker.types.complete_struct(number, members)?;
    Ok(())
}

// A struct whose members are there, where these rules are broken before.
fn closed(walker: &mut Walker, number: u32, faults: Faults) -> Result<Naming, TypeStop>
    ensures { Gives naming_of walker.old walker.new result (λ types. answering (closed number faults)) }
{
    let ty = walker.types.structure(number)?;
    let mut faults = faults;
    let Some(too_many) = walker.types.has_too_many_cells(ty) else {
        return Err(TypeStop::NoMemory);
    };
    faults.broken_if(Rule::BadLength, too_many)?;
    Ok(Naming {
        ty: Some(ty),
        faults,
    })
}
