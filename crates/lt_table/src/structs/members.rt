ghost use Rattle.std.specs.Prelude.{◌≡◌, List, map, option_map, IfOk};
ghost use Rattle.std.specs.Option.{option_copied};
ghost use Rattle.lt_tree.specs.declared.typed.types.TypeRow.{TypeRow};
ghost use Rattle.lt_tree.specs.Typing.Types.{CType};
ghost use Rattle.lt_tree.specs.Typing.EntityView as view;
ghost use Rattle.lt_tree.specs.Typing.Extents.{members_of, member_of, placed_members};
ghost use Rattle.lt_table.specs.TableRows.{Stays};
ghost use Rattle.lt_table.specs.StructTables.{structs_in, members_at, placed_in, member_at, known_at, shared_in, pairs_in, IsMember, Suits, AreShared};

use super::{PlacedMember, StructTable};
use lt_tree::typed::{Member, TypeId};
use std::alloc::AllocError;
use std::rc::Rc;

impl StructTable {
    /// The members of a struct that is complete.
    pub fn members(&self, number: u32) -> Option<&[Member]>
        ensures { (types : List CType) → option_map (map (view.member_of types)) (option_copied result) ≡ members_of (structs_in types self.now) number }
    {
        self.members_at(number)
    }

    /// The type and the offset of the member of a struct that has this name. None where there is none, and behind a member that has no size.
    pub fn member_of(&self, number: u32, name: &[u8]) -> Option<(TypeId, u64)>
        ensures { (rows : List TypeRow) → Suits rows self.now → Stays rows (λ types. IsMember types result (member_of self.now.model (structs_in types self.now) number name.now)) }
    {
        self.member_at(number, name)
    }

    /// The types and the offsets of the members of a struct, up to the first that has no size. None of a struct that is incomplete.
    pub fn placed_members(&self, number: u32) -> Result<Option<Rc<Vec<PlacedMember>>>, AllocError>
        ensures { IfOk result (λ them. (rows : List TypeRow) → Suits rows self.now → AreShared self.now → Stays rows (λ types. shared_in types them ≡ pairs_in (placed_members self.now.model (structs_in types self.now) number))) }
    {
        self.shared_at(number)
    }

    fn shared_at(&self, number: u32) -> Result<Option<Rc<Vec<PlacedMember>>>, AllocError>
        ensures { IfOk result (λ them. option_map (λ l. l.value.items) them ≡ option_map (λ facts. facts.placed.value.items) (known_at self.now.known.items number)) }
    {
        match self.known(number) {
            None => Ok(None),
            Some(facts) => Ok(Some(facts.placed.clone()?)),
        }
    }

    fn members_at(&self, number: u32) -> Option<&[Member]>
        ensures { option_copied result ≡ members_at self.now.structs.items number }
    {
        match self.structs.get(number as usize) {
            None => None,
            Some(it) => match &it.members {
                None => None,
                Some(members) => Some(members.as_slice()),
            },
        }
    }

    fn member_at(&self, number: u32, name: &[u8]) -> Option<(TypeId, u64)>
        ensures { result ≡ member_at self.now number name.now }
    {
        let members = self.members_at(number)?;
        let facts = self.known(number)?;
        let place = facts.places.get(name)?;
        placed_in(members, facts.offsets.as_slice(), *place)
    }
}

// The type and the offset of the member at this place, where it has an offset.
fn placed_in(members: &[Member], offsets: &[u64], place: usize) -> Option<(TypeId, u64)>
    ensures { result ≡ placed_in members.now offsets.now place }
{
    let member = members.get(place)?;
    let offset = offsets.get(place)?;
    Some((member.ty, *offset))
}
