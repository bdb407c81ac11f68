ghost use Rattle.std.specs.Prelude.{◌≡◌, ◌≤◌, ◌-◌, false, [], ◌∷◌, length, drop, IfOk};
ghost use Rattle.lt_expr.specs.Found.{found};

use indexmap::IndexMap;
use lt_model::Name;
use std::alloc::{AllocError, Global};
use std::marker::Model;

/// A name in scope.
#[derive(Drop)]
pub struct Binder {
    name: Name,
    /// Whether it is a typedef name.
    is_type: bool,
    /// The place of the binder of the same name that this one hides.
    hidden: Option<usize>,
}

/// The names in scope. Contracts see them as a list, the innermost first.
#[derive(Drop)]
pub struct Typedefs {
    alloc: Global,
    /// The innermost last.
    binders: Vec<Binder>,
    /// For each name the place of its innermost binder.
    newest: IndexMap<Vec<u8>, usize>,
}

impl Model for Typedefs {
    ghost use Rattle.std.specs.Prelude.{ℕ, Bool, List};
    ghost use Rattle.lt_tree.specs.Scope.{Scope};

    ghost Value = { Scope };

    ghost use Rattle.lt_expr.specs.Binders.{scope_in, Agree};

    ghost view = { λ t. scope_in t.binders.items };

    ghost invariant = { λ t. Agree t.binders.items t.newest };
}

impl Typedefs {
    /// No names.
    pub fn new(alloc: Global) -> Typedefs
        ensures { result ≡ [] }
    {
        Typedefs {
            alloc,
            binders: Vec::new(alloc),
            newest: IndexMap::new(alloc),
        }
    }

    /// How many names are in scope.
    pub fn len(&self) -> usize
        ensures { result ≡ length self.now }
    {
        self.binders.len()
    }

    /// Declares a name in front of all others.
    pub fn declare(&mut self, name: &Name, is_type: bool) -> Result<(), AllocError>
        ensures { IfOk result (λ _. self.new ≡ record { name = name.now; is_type = is_type } ∷ self.old) }
    {
        let key = Vec::from_slice(self.alloc, name.as_slice())?;
        let name = Name::new(self.alloc, name.as_slice())?;
        let place = self.binders.len();
        let hidden = self.newest.get(key.as_slice()).copied();
        self.binders.push(Binder {
            name,
            is_type,
            hidden,
        })?;
        match self.newest.insert(key, place) {
            Ok(_) => Ok(()),
            Err(_) => {
                let _undone = self.binders.pop();
                Err(AllocError)
            }
        }
    }

    /// Whether this name, if it is in scope, is a typedef name.
    pub fn find(&self, word: &[u8]) -> Option<bool>
        ensures { result ≡ found self.now word.now }
    {
        match self.newest.get(word) {
            None => None,
            Some(place) => Some(self.binders[*place].is_type),
        }
    }

    // Takes off the innermost name.
    fn leave(&mut self)
        ensures { self.new ≡ drop 1 self.old }
    {
        let Some(
            Binder {
                name,
                is_type: _,
                hidden,
            },
        ) = self.binders.pop()
        else {
            return;
        };
        match hidden {
            None => {
                let _gone = self.newest.swap_remove(name.as_slice());
            }
            Some(place) => {
                if let Some(newest) = self.newest.get_mut(name.as_slice()) {
                    *newest = place;
                }
            }
        }
    }

    /// Goes back to when there were so many names.
    pub fn back_to(&mut self, count: usize)
        requires { count ≤ length self.old }
        ensures { self.new ≡ drop (length self.old - count) self.old }
    {
        'more: while count < self.len() {
            self.leave();
        }
    }
}
