ghost use Rattle.std.specs.Prelude.{◌≡◌, ◌++◌, ◌∷◌, [], OnOk};
ghost use Rattle.lt_tree.specs.Typing.Operations.{is_among};

use indexmap::IndexMap;
use lt_model::Name;
use std::alloc::{AllocError, Global};
use std::marker::Model;

/// Names that are looked for. Contracts see them as a list, in which a name may stand more than once.
#[derive(Drop)]
pub struct NameSet {
    alloc: Global,
    list: Vec<Name>,
    names: IndexMap<Vec<u8>, ()>,
}

impl Model for NameSet {
    ghost use Rattle.std.specs.Prelude.{List, ℕ};

    ghost Value = { List (List ℕ) };

    ghost use Rattle.lt_tree.specs.Typing.Operations.{is_among};
    ghost use Rattle.lt_env.specs.NameMaps.{Agrees, member};

    ghost view = { λ s. s.list.items };

    ghost invariant = { λ s. Agrees s.names (λ w. member (is_among w s.list.items)) };
}

impl NameSet {
    /// No names.
    pub fn new(alloc: Global) -> NameSet
        ensures { result ≡ [] }
    {
        NameSet {
            alloc,
            list: Vec::new(alloc),
            names: IndexMap::new(alloc),
        }
    }

    /// Whether this is one of them.
    pub fn has(&self, name: &[u8]) -> bool
        ensures { result ≡ is_among name.now self.now }
    {
        self.names.get(name).is_some()
    }

    /// One more name.
    pub fn add(&mut self, name: Name) -> Result<(), AllocError>
        ensures { OnOk result (self.new ≡ self.old ++ name ∷ []) }
    {
        let key = Vec::from_slice(self.alloc, name.as_slice())?;
        self.list.push(name)?;
        match self.names.insert(key, ()) {
            Ok(_) => Ok(()),
            Err(_) => {
                let _undone = self.list.pop();
                Err(AllocError)
            }
        }
    }
}
