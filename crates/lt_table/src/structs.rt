// The structs of a program by their numbers, with what is derived of each once, when it becomes complete.
mod derived;
mod extent;
mod members;
mod queries;

ghost use Rattle.std.specs.Prelude.{◌≡◌, ◌++◌, ◌∷◌, List, [], None, Some, length, map, slice_set, IfOk, OnOk, OnErr};
ghost use Rattle.lt_tree.specs.declared.typed.types.TypeRow.{TypeRow};
ghost use Rattle.lt_tree.specs.Typing.Types.{CType};
ghost use Rattle.lt_tree.specs.Typing.EntityView.{member_of};
ghost use Rattle.lt_table.specs.TableRows.{Stays};
ghost use Rattle.lt_table.specs.StructTables.{structs_in, IsPut, Suits, AreShared};

use crate::table::TypeTable;
pub use extent::{
    Extent, member_offset, no_members, pointer_extent, repeated, scalar_extent, whole, with_member,
};
use indexmap::IndexMap;
use lt_model::DataModel;
use lt_tree::typed::{Member, StructType, TypeId};
use std::alloc::{AllocError, Global};
use std::rc::Rc;

/// A member of a struct, without its name.
#[derive(Clone, Copy, PartialEq, Eq, Debug)]
pub struct PlacedMember {
    pub ty: TypeId,
    pub offset: u64,
}

/// What is known of a complete struct.
#[derive(Drop)]
pub struct StructFacts {
    /// The scalars that it is made of; more than an object may have count as one more than that.
    pub cells: u32,
    /// None where a member has no size, or a number of bytes passes 64 bits.
    pub extent: Option<Extent>,
    /// Whether it or a part of it is `const`.
    pub has_constant: bool,
    /// Those of its first members; of all of them, where it has an extent.
    pub offsets: Vec<u64>,
    /// The types and the offsets of these.
    pub placed: Rc<Vec<PlacedMember>>,
    /// The place of the first member of each name.
    pub places: IndexMap<Vec<u8>, usize>,
}

/// The structs of a program, in a data model. Contracts see them by `structs_in`, as the types of a table of types give them.
#[derive(Drop)]
pub struct StructTable {
    alloc: Global,
    model: DataModel,
    structs: Vec<StructType>,
    /// For each struct what is known of it, once it is complete.
    known: Vec<Option<StructFacts>>,
}

impl StructTable {
    /// No structs.
    pub fn new(alloc: Global, model: DataModel) -> StructTable
        ensures model { result.model ≡ model }
        ensures none { result.structs.items ≡ [] }
        ensures suits { (rows : List TypeRow) → Suits rows result }
        ensures shared { AreShared result }
    {
        StructTable {
            alloc,
            model,
            structs: Vec::new(alloc),
            known: Vec::new(alloc),
        }
    }

    /// The data model.
    pub fn model(&self) -> DataModel
        ensures { result ≡ self.now.model }
    {
        self.model
    }

    /// How many structs there are.
    pub fn len(&self) -> usize
        ensures { (types : List CType) → result ≡ length (structs_in types self.now) }
    {
        self.structs.len()
    }

    /// All of them.
    pub fn into_list(self) -> Vec<StructType>
        ensures { result ≡ self.structs }
    {
        self.structs
    }

    /// One more struct, which is incomplete; its number. There are no more than 2^32: more end as want of memory does.
    pub fn add(&mut self) -> Result<u32, AllocError>
        ensures model { self.new.model ≡ self.old.model }
        ensures number { IfOk result (λ number. number ≡ length self.old.structs.items) }
        ensures added { OnOk result (self.new.structs.items ≡ self.old.structs.items ++ record { members = None } ∷ []) }
        ensures same { OnErr result (self.new.structs.items ≡ self.old.structs.items) }
        ensures suits { (rows : List TypeRow) → Suits rows self.old → Suits rows self.new }
        ensures shared { AreShared self.old → AreShared self.new }
    {
        let Ok(number) = u32::try_from(self.structs.len()) else {
            return Err(AllocError);
        };
        self.known.push(None)?;
        self.structs.push(StructType { members: None })?;
        Ok(number)
    }

    /// The struct of this number, which is incomplete, has these members. A member's type is complete: where one isn't, as where the struct would hold
    /// itself, where there is no such struct or it is complete, this ends as want of memory does. Then the table is as it was.
    pub fn complete(
        &mut self,
        types: &TypeTable,
        number: u32,
        members: Vec<Member>,
    ) -> Result<(), AllocError>
        requires { Suits types.now self.old }
        ensures model { self.new.model ≡ self.old.model }
        ensures completed { OnOk result (self.new.structs.items ≡ slice_set self.old.structs.items number (record { members = Some members })) }
        ensures members { OnOk result (Stays types.now (λ longer. structs_in longer self.new ≡ slice_set (structs_in longer self.old) number (record { members = Some (map (member_of longer) members.items) }))) }
        ensures suits { Suits types.now self.new }
        ensures shared { AreShared self.old → AreShared self.new }
        ensures same { OnErr result (self.new ≡ self.old) }
    {
        let facts = self.derived(types, &members)?;
        self.put(number, members, facts)
    }

    // The struct of this number, which is incomplete, has these members.
    fn put(
        &mut self,
        number: u32,
        members: Vec<Member>,
        facts: StructFacts,
    ) -> Result<(), AllocError>
        ensures put { OnOk result (IsPut self.old self.new number (record { members = Some members }) facts) }
        ensures same { OnErr result (self.new ≡ self.old) }
    {
        let place = number as usize;
        let is_there = place < self.structs.len() && place < self.known.len();
        if !is_there || self.is_struct_complete(number) {
            return Err(AllocError);
        }
        self.structs[place] = StructType {
            members: Some(members),
        };
        self.known[place] = Some(facts);
        Ok(())
    }
}
