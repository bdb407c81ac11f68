ghost use Rattle.std.specs.Prelude.{◌≡◌, [], ◌∷◌, List, drop, length, map, option_map, OnOk, IfOk};
ghost use Rattle.lt_tree.specs.Typing.Types.{CType};
ghost use Rattle.lt_tree.specs.Typing.EntityView.{entity_of, tagged_of};
ghost use Rattle.lt_tree.specs.Typing.EntityView as view;
ghost use Rattle.lt_tree.specs.Typing.Entities.{bound_among, tagged_among, bound_in, tagged_in, innermost, no_names, binding, tagging};
ghost use Rattle.lt_env.specs.NamesValue.{frames_at, frame_at, KeepsOuter};
ghost use Rattle.lt_env.specs.ScopeFrames.{names_of, tags_of};

use lt_scope::{Frame as Binders, Scopes};
use lt_tree::typed::{Bound, Entity, Frame, Tag, Tagged};
use std::alloc::{AllocError, Global};
use std::marker::Model;

/// What one block, file or list of parameters declares.
#[derive(Drop)]
pub struct NameFrame {
    names: Binders<Entity>,
    tags: Binders<Tagged>,
}

impl Model for NameFrame {
    ghost use Rattle.lt_env.specs.NamesValue.{NameFrameValue};

    ghost Value = { NameFrameValue };

    ghost view = { λ f. record { names = f.names; tags = f.tags } };
}

/// The names and tags in scope, C11 6.2.1.
#[derive(Drop)]
pub struct Names {
    names: Scopes<Entity>,
    /// As many frames as there are of names.
    tags: Scopes<Tagged>,
}

impl Model for Names {
    ghost use Rattle.std.specs.Prelude.{◌≡◌, length};
    ghost use Rattle.lt_env.specs.NamesValue.{NamesValue};

    ghost Value = { NamesValue };

    ghost view = { λ n. record { names = n.names; tags = n.tags } };

    ghost invariant = { λ n. length n.names ≡ length n.tags };
}

impl NameFrame {
    /// No names.
    pub fn new(alloc: Global) -> NameFrame
        ensures { (types : List CType) → frame_at types result ≡ no_names }
    {
        NameFrame {
            names: Binders::new(alloc),
            tags: Binders::new(alloc),
        }
    }
}

// The names of a frame, as a program has them.
fn bounds(alloc: Global, mut names: Binders<Entity>) -> Result<Vec<Bound>, AllocError>
    ensures { IfOk result (λ list. (types : List CType) → map (view.bound_of types) list.items ≡ names_of (entity_of types) names) }
{
    let mut list = Vec::new(alloc);
    'names: while let Some((name, entity)) = names.pop() {
        list.push(Bound { name, entity })?;
    }
    Ok(list)
}

// The tags of a frame, as a program has them.
fn tags(alloc: Global, mut tags: Binders<Tagged>) -> Result<Vec<Tag>, AllocError>
    ensures { IfOk result (λ list. map view.tag_of list.items ≡ tags_of tagged_of tags) }
{
    let mut list = Vec::new(alloc);
    'tags: while let Some((name, tagged)) = tags.pop() {
        list.push(Tag { name, tagged })?;
    }
    Ok(list)
}

impl Names {
    /// No frames.
    pub fn new(alloc: Global) -> Names
        ensures { (types : List CType) → frames_at types result ≡ [] }
    {
        Names {
            names: Scopes::new(alloc),
            tags: Scopes::new(alloc),
        }
    }

    /// How many frames are open.
    pub fn depth(&self) -> usize
        ensures { (types : List CType) → result ≡ length (frames_at types self.now) }
    {
        self.names.depth()
    }

    /// What a name stands for.
    pub fn find(&self, name: &[u8]) -> Option<Entity>
        ensures { (types : List CType) → option_map (entity_of types) result ≡ bound_in name.now (frames_at types self.now) }
    {
        self.names.find(name)
    }

    /// What the innermost frame declares a name as.
    pub fn find_here(&self, name: &[u8]) -> Option<Entity>
        ensures { (types : List CType) → option_map (entity_of types) result ≡ bound_among name.now (innermost (frames_at types self.now)).names }
    {
        self.names.find_here(name)
    }

    /// What a tag stands for.
    pub fn find_tag(&self, tag: &[u8]) -> Option<Tagged>
        ensures { (types : List CType) → option_map tagged_of result ≡ tagged_in tag.now (frames_at types self.now) }
    {
        self.tags.find(tag)
    }

    /// What the innermost frame declares a tag as.
    pub fn find_tag_here(&self, tag: &[u8]) -> Option<Tagged>
        ensures { (types : List CType) → option_map tagged_of result ≡ tagged_among tag.now (innermost (frames_at types self.now)).tags }
    {
        self.tags.find_here(tag)
    }

    /// Declares a name in the innermost frame, if one is open.
    pub fn bind(&mut self, name: &[u8], entity: Entity) -> Result<(), AllocError>
        ensures bound { OnOk result ((types : List CType) → frames_at types self.new ≡ binding name.now (entity_of types entity) (frames_at types self.old)) }
        ensures outer { OnOk result (KeepsOuter self.old self.new) }
    {
        self.names.bind(name, entity)
    }

    /// Declares a tag in the innermost frame, if one is open.
    pub fn bind_tag(&mut self, tag: &[u8], tagged: Tagged) -> Result<(), AllocError>
        ensures bound { OnOk result ((types : List CType) → frames_at types self.new ≡ tagging tag.now (tagged_of tagged) (frames_at types self.old)) }
        ensures outer { OnOk result (KeepsOuter self.old self.new) }
    {
        self.tags.bind(tag, tagged)
    }

    /// Opens a frame with these names.
    pub fn open(&mut self, frame: NameFrame) -> Result<(), AllocError>
        ensures names { OnOk result (self.new.names ≡ frame.names ∷ self.old.names) }
        ensures tags { OnOk result (self.new.tags ≡ frame.tags ∷ self.old.tags) }
    {
        self.names.open_with(frame.names)?;
        match self.tags.open_with(frame.tags) {
            Ok(()) => Ok(()),
            Err(error) => {
                let _undone = self.names.close();
                Err(error)
            }
        }
    }

    /// Takes off the innermost frame, and gives its names.
    pub fn close(&mut self) -> NameFrame
        ensures frame { (types : List CType) → frame_at types result ≡ innermost (frames_at types self.old) }
        ensures names { self.new.names ≡ drop 1 self.old.names }
        ensures tags { self.new.tags ≡ drop 1 self.old.tags }
    {
        NameFrame {
            names: self.names.close(),
            tags: self.tags.close(),
        }
    }

    /// The names and tags of the innermost frame, the latest first.
    pub fn innermost(&self, alloc: Global) -> Result<NameFrame, AllocError>
        ensures { IfOk result (λ frame. (types : List CType) → frame_at types frame ≡ innermost (frames_at types self.now)) }
    {
        Ok(NameFrame {
            names: self.names.innermost(alloc)?,
            tags: self.tags.innermost(alloc)?,
        })
    }

    /// The names and tags of the innermost frame, as a program has them.
    pub fn innermost_frame(&self, alloc: Global) -> Result<Frame, AllocError>
        ensures { IfOk result (λ frame. (types : List CType) → view.frame_of types frame ≡ innermost (frames_at types self.now)) }
    {
        Ok(Frame {
            names: bounds(alloc, self.names.innermost(alloc)?)?,
            tags: tags(alloc, self.tags.innermost(alloc)?)?,
        })
    }
}
