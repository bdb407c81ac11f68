ghost use Rattle.std.specs.Prelude.{◌≡◌, ◌++◌, ◌∷◌, [], List, map, option_map, OnOk};
ghost use Rattle.std.specs.List.{list_any};
ghost use Rattle.std.specs.Str.{bytes_eq};
ghost use Rattle.lt_tree.specs.Typing.Types.{CType};
ghost use Rattle.lt_tree.specs.Typing.TypeRows.{type_in};
ghost use Rattle.lt_tree.specs.Typing.Entities.{declared_among};
ghost use Rattle.lt_env.specs.Symbols.{declared_at, with_declared};

use indexmap::IndexMap;
use lt_model::Name;
use lt_tree::typed::{Declared, Function, TypeId};
use std::alloc::{AllocError, Global};
use std::marker::Model;

/// The functions that are declared, with or without bodies, in the order of their first declarations. Contracts see them as a list.
#[derive(Drop)]
pub struct Declarations {
    alloc: Global,
    list: Vec<Declared>,
    /// The type of each name.
    types: IndexMap<Vec<u8>, TypeId>,
}

impl Model for Declarations {
    ghost use Rattle.std.specs.Prelude.{List};
    ghost use Rattle.lt_tree.specs.declared.typed.entity.Declared.{Declared};

    ghost Value = { List Declared };

    ghost use Rattle.lt_env.specs.Symbols.{declared_as};
    ghost use Rattle.lt_env.specs.NameMaps.{Agrees};

    ghost view = { λ d. d.list.items };

    ghost invariant = { λ d. Agrees d.types (λ w. declared_as w d.list.items) };
}

impl Declarations {
    /// No functions.
    pub fn new(alloc: Global) -> Declarations
        ensures { result ≡ [] }
    {
        Declarations {
            alloc,
            list: Vec::new(alloc),
            types: IndexMap::new(alloc),
        }
    }

    /// The type with which the function of this name is declared.
    pub fn ty(&self, name: &[u8]) -> Option<TypeId>
        ensures { (types : List CType) → option_map (type_in types) result ≡ declared_among name.now (declared_at types self.now) }
    {
        let ty = self.types.get(name)?;
        Some(*ty)
    }

    /// Declares a function, unless one of its name is declared.
    pub fn declare(&mut self, name: &[u8], ty: TypeId) -> Result<(), AllocError>
        ensures { OnOk result (self.new ≡ with_declared name.now ty self.old) }
    {
        if self.types.get(name).is_some() {
            return Ok(());
        }
        let key = Vec::from_slice(self.alloc, name)?;
        let name = Name::new(self.alloc, name)?;
        self.list.push(Declared { name, ty })?;
        match self.types.insert(key, ty) {
            Ok(_) => Ok(()),
            Err(_) => {
                let _undone = self.list.pop();
                Err(AllocError)
            }
        }
    }

    /// All of them.
    pub fn into_list(self) -> Vec<Declared>
        ensures { result.items ≡ self }
    {
        self.list
    }
}

/// The functions with bodies, in the order of these. Contracts see them as a list.
#[derive(Drop)]
pub struct Bodies {
    alloc: Global,
    list: Vec<Function>,
    names: IndexMap<Vec<u8>, ()>,
}

impl Model for Bodies {
    ghost use Rattle.std.specs.Prelude.{List};
    ghost use Rattle.lt_tree.specs.declared.typed.entity.Function.{Function};

    ghost Value = { List Function };

    ghost use Rattle.std.specs.Coded.{codes};
    ghost use Rattle.lt_tree.specs.contracts.typed.statement.Item as e;

    ghost coded = { Prim.hlevel (codes, e.the_row.coded) };

    ghost use Rattle.std.specs.List.{list_any};
    ghost use Rattle.std.specs.Str.{bytes_eq};
    ghost use Rattle.lt_env.specs.NameMaps.{Agrees, member};

    ghost view = { λ d. d.list.items };

    ghost invariant = { λ d. Agrees d.names (λ w. member (list_any (λ f. bytes_eq f.name w) d.list.items)) };
}

impl Bodies {
    /// No functions.
    pub fn new(alloc: Global) -> Bodies
        ensures { result ≡ [] }
    {
        Bodies {
            alloc,
            list: Vec::new(alloc),
            names: IndexMap::new(alloc),
        }
    }

    /// Whether there is one of this name.
    pub fn has(&self, name: &[u8]) -> bool
        ensures { result ≡ list_any (λ f. bytes_eq f.name name.now) self.now }
    {
        self.names.get(name).is_some()
    }

    /// One more function.
    pub fn add(&mut self, function: Function) -> Result<(), AllocError>
        ensures { OnOk result (self.new ≡ self.old ++ function ∷ []) }
    {
        let key = Vec::from_slice(self.alloc, function.name.as_slice())?;
        self.list.push(function)?;
        match self.names.insert(key, ()) {
            Ok(_) => Ok(()),
            Err(_) => {
                let _undone = self.list.pop();
                Err(AllocError)
            }
        }
    }

    /// All of them.
    pub fn into_list(self) -> Vec<Function>
        ensures { result.items ≡ self }
    {
        self.list
    }
}
