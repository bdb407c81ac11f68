ghost use Rattle.std.specs.Prelude.{◌≡◌, ◌++◌, ◌∷◌, [], List, OnOk};
ghost use Rattle.lt_tree.specs.Typing.Types.{CType};
ghost use Rattle.lt_tree.specs.Typing.Declarators.{has_member};
ghost use Rattle.lt_declare.specs.DeclaredViews.{members_in};

use indexmap::IndexMap;
use lt_model::Name;
use lt_tree::typed::{Member, TypeId};
use std::alloc::{AllocError, Global};
use std::marker::Model;

/// The members of a struct that is being declared. Contracts see them as a list.
#[derive(Drop)]
pub struct OpenMembers {
    alloc: Global,
    list: Vec<Member>,
    names: IndexMap<Vec<u8>, ()>,
}

impl Model for OpenMembers {
    ghost use Rattle.std.specs.Prelude.{List};
    ghost use Rattle.lt_tree.specs.declared.typed.entity.Member.{Member};

    ghost Value = { List Member };

    ghost use Rattle.std.specs.List.{list_any};
    ghost use Rattle.std.specs.Str.{bytes_eq};
    ghost use Rattle.lt_env.specs.NameMaps.{Agrees, member};

    ghost view = { λ m. m.list.items };

    ghost invariant = { λ m. Agrees m.names (λ w. member (list_any (λ it. bytes_eq it.name w) m.list.items)) };
}

impl OpenMembers {
    /// No members.
    pub fn new(alloc: Global) -> OpenMembers
        ensures { result ≡ [] }
    {
        OpenMembers {
            alloc,
            list: Vec::new(alloc),
            names: IndexMap::new(alloc),
        }
    }

    /// Whether there is one of this name.
    pub fn has(&self, name: &[u8]) -> bool
        ensures { (types : List CType) → result ≡ has_member name.now (members_in types self.now) }
    {
        self.names.get(name).is_some()
    }

    /// One more member.
    pub fn add(&mut self, name: Name, ty: TypeId) -> Result<(), AllocError>
        ensures { OnOk result (self.new ≡ self.old ++ record { name = name; ty = ty } ∷ []) }
    {
        let key = Vec::from_slice(self.alloc, name.as_slice())?;
        self.list.push(Member { name, ty })?;
        match self.names.insert(key, ()) {
            Ok(_) => Ok(()),
            Err(_) => {
                let _undone = self.list.pop();
                Err(AllocError)
            }
        }
    }

    /// All of them.
    pub fn into_list(self) -> Vec<Member>
        ensures { result.items ≡ self }
    {
        self.list
    }
}
