// The types of what a program declares, and of its expressions.

ghost use Rattle.std.specs.Prelude.{◌≡◌, [], length, map, IfOk, OnOk};
ghost use Rattle.std.specs.List.{flat_map};
ghost use Rattle.lt_tree.specs.Typing.TypeRows.{type_in};
ghost use Rattle.lt_tree.specs.Typing.EntityView.{member_of, struct_of, structs_of, object_of, declared_of, fact_of};
ghost use Rattle.lt_tree.specs.Typing.TypeIds.{AreBelow};
ghost use Rattle.lt_tree.specs.Typing.Programs.{made_of, types_of_struct, with_new};
ghost use Rattle.lt_unit.specs.Listing.{AreByPlace, IsListing, ListsMore, types_at, listed_in};
ghost use Rattle.lt_unit.specs.ListedTypes.{types_in_all};

use crate::listing::{Listed, TypesByPlace, list};
use lt_tree::typed::{Declared, Fact, Member, Object, StructType, TypeId};
use std::alloc::{AllocError, Global};

/// The types of members, of objects, of functions and of expressions, in this order, each once, without qualifiers and behind those of which it is
/// made. Each has a row.
pub fn listed_types(
    alloc: Global,
    types: &TypesByPlace,
    structs: &[StructType],
    objects: &[Object],
    declared: &[Declared],
    facts: &[Fact],
) -> Result<Vec<TypeId>, AllocError>
    requires { AreByPlace types.now }
    ensures listed { IfOk result (λ ids. map (type_in (types_at types.now)) ids.items ≡ with_new [] (types_in_all (types_at types.now) structs.now objects.now declared.now facts.now)) }
    ensures rows { IfOk result (λ ids. AreBelow (length types.now.rows.items) ids.items) }
{
    let mut listed = none(alloc, types)?;
    list_structs(types, &mut listed, structs)?;
    list_objects(types, &mut listed, objects)?;
    list_declared(types, &mut listed, declared)?;
    list_facts(types, &mut listed, facts)?;
    Ok(listed.ids)
}

// No types are listed.
fn none(alloc: Global, types: &TypesByPlace) -> Result<Listed, AllocError>
    ensures listing { IfOk result (λ listed. IsListing types.now listed) }
    ensures none { IfOk result (λ listed. listed_in (types_at types.now) listed ≡ []) }
{
    Ok(Listed {
        alloc,
        ids: Vec::new(alloc),
        is_listed: vec![in alloc; false; types.rows.len()]?,
    })
}

// Lists the types of the members of structs.
fn list_structs(
    types: &TypesByPlace,
    listed: &mut Listed,
    structs: &[StructType],
) -> Result<(), AllocError>
    requires known { AreByPlace types.now }
    requires listing { IsListing types.now listed.old }
    ensures { OnOk result (ListsMore types.now listed.old listed.new (flat_map types_of_struct (structs_of (types_at types.now) structs.now))) }
{
    'all: for it in structs {
        list_struct(types, listed, it)?;
    }
    Ok(())
}

// Lists the types of the members of a struct, if it has them.
fn list_struct(types: &TypesByPlace, listed: &mut Listed, it: &StructType) -> Result<(), AllocError>
    requires known { AreByPlace types.now }
    requires listing { IsListing types.now listed.old }
    ensures { OnOk result (ListsMore types.now listed.old listed.new (types_of_struct (struct_of (types_at types.now) it.now))) }
{
    match &it.members {
        Some(members) => list_members(types, listed, members.as_slice()),
        None => Ok(()),
    }
}

fn list_members(
    types: &TypesByPlace,
    listed: &mut Listed,
    members: &[Member],
) -> Result<(), AllocError>
    requires known { AreByPlace types.now }
    requires listing { IsListing types.now listed.old }
    ensures { OnOk result (ListsMore types.now listed.old listed.new (flat_map (λ member. made_of member.type) (map (member_of (types_at types.now)) members.now))) }
{
    'all: for member in members {
        list(types, listed, member.ty)?;
    }
    Ok(())
}

// Lists the types of objects.
fn list_objects(
    types: &TypesByPlace,
    listed: &mut Listed,
    objects: &[Object],
) -> Result<(), AllocError>
    requires known { AreByPlace types.now }
    requires listing { IsListing types.now listed.old }
    ensures { OnOk result (ListsMore types.now listed.old listed.new (flat_map (λ object. made_of object.type) (map (object_of (types_at types.now)) objects.now))) }
{
    'all: for object in objects {
        list(types, listed, object.ty)?;
    }
    Ok(())
}

// Lists the types of functions.
fn list_declared(
    types: &TypesByPlace,
    listed: &mut Listed,
    declared: &[Declared],
) -> Result<(), AllocError>
    requires known { AreByPlace types.now }
    requires listing { IsListing types.now listed.old }
    ensures { OnOk result (ListsMore types.now listed.old listed.new (flat_map (λ f. made_of f.type) (map (declared_of (types_at types.now)) declared.now))) }
{
    'all: for f in declared {
        list(types, listed, f.ty)?;
    }
    Ok(())
}

// Lists the types of expressions.
fn list_facts(types: &TypesByPlace, listed: &mut Listed, facts: &[Fact]) -> Result<(), AllocError>
    requires known { AreByPlace types.now }
    requires listing { IsListing types.now listed.old }
    ensures { OnOk result (ListsMore types.now listed.old listed.new (flat_map (λ fact. made_of fact.type) (map (fact_of (types_at types.now)) facts.now))) }
{
    'all: for fact in facts {
        list(types, listed, fact.ty)?;
    }
    Ok(())
}
