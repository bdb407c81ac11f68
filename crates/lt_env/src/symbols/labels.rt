ghost use Rattle.std.specs.Prelude.{◌≡◌, ◌==◌, ◌++◌, ◌∷◌, [], map, OnOk};
ghost use Rattle.std.specs.List.{list_any};
ghost use Rattle.lt_tree.specs.Typing.EntityView.{label_of};
ghost use Rattle.lt_tree.specs.Typing.Operations.{is_among};
ghost use Rattle.lt_env.specs.NameMaps.{HasNames};
ghost use Rattle.lt_env.specs.LabelMaps.{KnowLabels};

use indexmap::IndexMap;
use lt_model::Name;
use lt_tree::typed::LabelInfo;
use std::alloc::{AllocError, Global};
use std::marker::Model;

/// The labels of a program, in the order of the text. Contracts see them as a list.
#[derive(Drop)]
pub struct Labels {
    alloc: Global,
    list: Vec<LabelInfo>,
    ids: IndexMap<u32, ()>,
    /// The names that they bind.
    bound: IndexMap<Vec<u8>, ()>,
}

impl Model for Labels {
    ghost use Rattle.std.specs.Prelude.{List};
    ghost use Rattle.lt_tree.specs.declared.typed.entity.LabelInfo.{LabelInfo};

    ghost Value = { List LabelInfo };

    ghost use Rattle.lt_env.specs.LabelMaps.{KnowLabels};

    ghost view = { λ l. l.list.items };

    ghost invariant = { λ l. KnowLabels l.list.items l.ids l.bound };
}

// Keeps names in a map.
fn insert_all(
    alloc: Global,
    bound: &mut IndexMap<Vec<u8>, ()>,
    names: &[Name],
) -> Result<(), AllocError>
    ensures { OnOk result (HasNames names.now bound.old bound.new) }
{
    for name in names {
        let key = Vec::from_slice(alloc, name.as_slice())?;
        bound.insert(key, ())?;
    }
    Ok(())
}

// Keeps a label in the list and the maps.
fn insert_label(
    alloc: Global,
    list: &mut Vec<LabelInfo>,
    ids: &mut IndexMap<u32, ()>,
    bound: &mut IndexMap<Vec<u8>, ()>,
    label: LabelInfo,
) -> Result<(), AllocError>
    ensures added { OnOk result (list.new.items ≡ list.old.items ++ label ∷ []) }
    ensures known { OnOk result (KnowLabels list.old.items ids.old bound.old → KnowLabels list.new.items ids.new bound.new) }
{
    ids.insert(label.id, ())?;
    insert_all(alloc, bound, &label.bound)?;
    list.push(label)?;
    Ok(())
}

impl Labels {
    /// No labels.
    pub fn new(alloc: Global) -> Labels
        ensures { result ≡ [] }
    {
        Labels {
            alloc,
            list: Vec::new(alloc),
            ids: IndexMap::new(alloc),
            bound: IndexMap::new(alloc),
        }
    }

    /// Whether there is one with this id.
    pub fn has_id(&self, id: u32) -> bool
        ensures { result ≡ list_any (λ label. label.id == id) (map label_of self.now) }
    {
        self.ids.get(&id).is_some()
    }

    /// Whether one binds this name.
    pub fn has_name(&self, name: &[u8]) -> bool
        ensures { result ≡ list_any (λ label. is_among name.now label.bound) (map label_of self.now) }
    {
        self.bound.get(name).is_some()
    }

    /// One more label. Where there is too little memory none are left.
    pub fn add(&mut self, label: LabelInfo) -> Result<(), AllocError>
        ensures { OnOk result (self.new ≡ self.old ++ label ∷ []) }
    {
        let kept = insert_label(
            self.alloc,
            &mut self.list,
            &mut self.ids,
            &mut self.bound,
            label,
        );
        if kept.is_err() {
            *self = Labels::new(self.alloc);
        }
        kept
    }

    /// All of them.
    pub fn into_list(self) -> Vec<LabelInfo>
        ensures { result.items ≡ self }
    {
        self.list
    }
}
