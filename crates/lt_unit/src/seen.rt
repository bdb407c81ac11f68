ghost use Rattle.std.specs.Prelude.{◌≡◌, ◌∷◌, [], false, true, OnOk};
ghost use Rattle.std.specs.List.{list_any};
ghost use Rattle.std.specs.Ordering.{int_eq};

use indexmap::IndexMap;
use std::alloc::{AllocError, Global};
use std::marker::Model;

/// What the labels of a `switch` have. Contracts see the values as a list, the latest first.
#[derive(Drop)]
pub struct Seen {
    values: Vec<i128>,
    places: IndexMap<i128, ()>,
    has_default: bool,
}

impl Model for Seen {
    ghost use Rattle.std.specs.Prelude.{reverse};
    ghost use Rattle.lt_tree.specs.Typing.StatementTyping as typing;
    ghost use Rattle.lt_unit.specs.SeenCases.{Knows};

    ghost Value = { typing.Seen };

    ghost view = { λ s. record { values = reverse s.values.items; has_default = s.has_default } };

    ghost invariant = { λ s. Knows (reverse s.values.items) s.places };
}

impl Seen {
    /// No labels.
    pub fn new(alloc: Global) -> Seen
        ensures { result ≡ record { values = []; has_default = false } }
    {
        Seen {
            values: Vec::new(alloc),
            places: IndexMap::new(alloc),
            has_default: false,
        }
    }

    /// Whether there was a case with this value.
    pub fn has(&self, z: i128) -> bool
        ensures { result ≡ list_any (int_eq z) self.now.values }
    {
        self.places.get(&z).is_some()
    }

    /// Whether there was a `default`.
    pub fn has_default(&self) -> bool
        ensures { result ≡ self.now.has_default }
    {
        self.has_default
    }

    /// One more case.
    pub fn add(&mut self, z: i128) -> Result<(), AllocError>
        ensures { OnOk result (self.new ≡ record self.old { values = z ∷ self.old.values }) }
    {
        self.values.push(z)?;
        match self.places.insert(z, ()) {
            Ok(_) => Ok(()),
            Err(_) => {
                let _undone = self.values.pop();
                Err(AllocError)
            }
        }
    }

    /// A `default`.
    pub fn add_default(&mut self)
        ensures { self.new ≡ record self.old { has_default = true } }
    {
        self.has_default = true;
    }
}
