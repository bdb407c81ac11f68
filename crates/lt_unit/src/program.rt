// What is known at the start of a unit, and the program of what is known at its end.

ghost use Rattle.std.specs.Prelude.{◌≡◌, List, IfOk, IfErr};
ghost use Rattle.lt_tree.specs.Typing.Types.{CType};
ghost use Rattle.lt_tree.specs.Typing.Entities as entities;
ghost use Rattle.lt_table.specs.TableRows.{Grows};
ghost use Rattle.lt_env.specs.declared.stop.TypeStop.TheVariants.{NoMemory};
ghost use Rattle.lt_env.specs.Going.{known_of};
ghost use Rattle.lt_unit.specs.Listing.{AreByPlace};
ghost use Rattle.lt_unit.specs.Programs.{IsProgram, KnowsInRange};

use crate::listed::listed_types;
use crate::listing::TypesByPlace;
use lt_model::DataModel;
use lt_table::Types;
use lt_tree::Unit;
use lt_tree::typed::{Program, StructType};
use lt_type::{Bodies, Declarations, Labels, NameFrame, NameSet, Names, Objects, TypeStop, Walker};
use std::alloc::{AllocError, Global};

/// What is known at the start of a unit.
pub fn at_start(alloc: Global, model: DataModel, defined: NameSet) -> Result<Walker, TypeStop>
    ensures known { IfOk result (λ walker. (types : List CType) → known_of types walker ≡ entities.at_start model defined) }
    ensures stops { IfErr result (λ stop. stop ≡ NoMemory) }
{
    let mut walker = Walker {
        types: Types::new(alloc, model),
        defined,
        next: 0,
        is_unmarked: false,
        names: Names::new(alloc),
        objects: Objects::new(alloc),
        declared: Declarations::new(alloc),
        functions: Bodies::new(alloc),
        labels: Labels::new(alloc),
        facts: Vec::new(alloc),
    };
    walker.open(NameFrame::new(alloc))?;
    Ok(walker)
}

/// The types of a program by their places, and its structs.
#[derive(Drop)]
struct Parts {
    types: TypesByPlace,
    structs: Vec<StructType>,
}

// The parts of a table of types.
fn parts_of(types: Types) -> Result<Parts, AllocError>
    ensures known { IfOk result (λ parts. AreByPlace parts.types) }
    ensures grows { IfOk result (λ parts. Grows types.rows parts.types.rows.items) }
    ensures structs { IfOk result (λ parts. parts.structs.items ≡ types.structs) }
{
    let mut types = types;
    let bare = types.bare_types()?;
    let (rows, structs) = types.into_parts()?;
    Ok(Parts {
        types: TypesByPlace { rows, bare },
        structs,
    })
}

/// The program of a unit, of what is known at its end.
pub fn program(walker: Walker, unit: &Unit) -> Result<Program<'_>, TypeStop>
    requires { KnowsInRange walker unit.now }
    ensures { IsProgram walker unit.now result }
{
    let alloc = walker.types.alloc();
    let model = walker.types.model();
    let file = walker.names.innermost_frame(alloc)?;
    let Parts { types, structs } = parts_of(walker.types)?;
    let objects = walker.objects.into_list();
    let declared = walker.declared.into_list();
    let facts = walker.facts;
    let listed = listed_types(alloc, &types, &structs, &objects, &declared, &facts)?;
    Ok(Program {
        unit,
        model,
        structs,
        objects,
        declared,
        functions: walker.functions.into_list(),
        file,
        types: listed,
        labels: walker.labels.into_list(),
        facts,
        table: types.rows,
    })
}
