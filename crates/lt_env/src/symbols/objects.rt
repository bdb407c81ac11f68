ghost use Rattle.std.specs.Prelude.{◌≡◌, ◌++◌, ◌∷◌, [], List, length, map, slice_get, slice_set, OnOk, IfOk};
ghost use Rattle.std.specs.Option.{option_copied};
ghost use Rattle.lt_tree.specs.Typing.Types.{CType};
ghost use Rattle.lt_tree.specs.Typing.EntityView.{object_of};
ghost use Rattle.lt_tree.specs.Typing.Entities.{linked_from};
ghost use Rattle.lt_env.specs.Symbols.{is_first, with_start};

use indexmap::IndexMap;
use lt_model::Name;
use lt_tree::typed::{Life, Object, Start, TypeId};
use std::alloc::{AllocError, Global};
use std::marker::Model;

/// The objects of a program by their numbers, in the order in which they are declared. Contracts see them as a list.
#[derive(Drop)]
pub struct Objects {
    alloc: Global,
    list: Vec<Object>,
    /// The number of the linked object of each name.
    linked: IndexMap<Vec<u8>, u32>,
}

impl Model for Objects {
    ghost use Rattle.std.specs.Prelude.{List};
    ghost use Rattle.lt_tree.specs.declared.typed.entity.Object.{Object};

    ghost Value = { List Object };

    ghost use Rattle.std.specs.Coded.{codes};
    ghost use Rattle.lt_tree.specs.contracts.typed.tree.Value as e;

    ghost coded = { Prim.hlevel (codes, e.the_row.coded) };

    ghost use Rattle.std.specs.Prelude.{[], map};
    ghost use Rattle.lt_tree.specs.Typing.EntityView.{object_of};
    ghost use Rattle.lt_tree.specs.Typing.Entities.{linked_from};
    ghost use Rattle.lt_env.specs.NameMaps.{Agrees};

    ghost view = { λ o. o.list.items };

    ghost invariant = { λ o. Agrees o.linked (λ w. linked_from 0 w (map (object_of []) o.list.items)) };
}

// The object of this number has this type and starts so.
fn start_in(list: &mut Vec<Object>, number: u32, ty: TypeId, start: Option<Start>)
    ensures { list.new.items ≡ with_start number ty start list.old.items }
{
    if let Some(object) = list.get_mut(number as usize) {
        object.ty = ty;
        object.start = start;
    }
}

impl Objects {
    /// No objects.
    pub fn new(alloc: Global) -> Objects
        ensures { result ≡ [] }
    {
        Objects {
            alloc,
            list: Vec::new(alloc),
            linked: IndexMap::new(alloc),
        }
    }

    /// The object of this number.
    pub fn get(&self, number: u32) -> Option<&Object>
        ensures { option_copied result ≡ slice_get self.now number }
    {
        self.list.get(number as usize)
    }

    /// The number of the linked object of this name.
    pub fn linked(&self, name: &[u8]) -> Option<u32>
        ensures { (types : List CType) → result ≡ linked_from 0 name.now (map (object_of types) self.now) }
    {
        let number = self.linked.get(name)?;
        Some(*number)
    }

    // Whether an object is linked, and the first of its name.
    fn is_first(&self, object: &Object) -> bool
        ensures { result ≡ is_first self.now object.now }
    {
        object.life == Life::Linked && self.linked(object.name.as_slice()).is_none()
    }

    /// One more object; its number. There are no more than 2^32: more end as want of memory does.
    pub fn add(&mut self, object: Object) -> Result<u32, AllocError>
        ensures number { IfOk result (λ number. number ≡ length self.old) }
        ensures added { OnOk result (self.new ≡ self.old ++ object ∷ []) }
    {
        let Ok(number) = u32::try_from(self.list.len()) else {
            return Err(AllocError);
        };
        let key = Vec::from_slice(self.alloc, object.name.as_slice())?;
        let is_first = self.is_first(&object);
        self.list.push(object)?;
        if !is_first {
            return Ok(number);
        }
        match self.linked.insert(key, number) {
            Ok(_) => Ok(number),
            Err(_) => {
                let _undone = self.list.pop();
                Err(AllocError)
            }
        }
    }

    /// The object of this number has this type and starts so.
    pub fn start(&mut self, number: u32, ty: TypeId, start: Option<Start>)
        ensures { self.new ≡ with_start number ty start self.old }
    {
        start_in(&mut self.list, number, ty, start)
    }

    /// All of them.
    pub fn into_list(self) -> Vec<Object>
        ensures { result.items ≡ self }
    {
        self.list
    }
}
