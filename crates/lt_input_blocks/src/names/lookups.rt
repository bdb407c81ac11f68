// The maps, and the types that are found in them.

ghost use Rattle.std.specs.Prelude.{◌≡◌, ℕ, List, IfOk, option_map};
ghost use Rattle.lt_tree.specs.Typing.Entities.{bound_among};
ghost use Rattle.lt_entry.specs.TypeNames.{tag_type, struct_named, enum_named, typedef_named, if_qualifiers};
ghost use Rattle.lt_input_names.specs.Blocks.{base_of};
ghost use Rattle.lt_input_names.specs.Found.{found_in};
ghost use Rattle.lt_input_blocks.specs.Tokens.{texts};
ghost use Rattle.lt_input_blocks.specs.Names as spec;
ghost use Rattle.lt_input_blocks.specs.Names.{AreFileNames, types_at, file_at, entity_among, tag_among};

use super::FileNames;
use crate::first::put_first;
use crate::tokens::are_qualifiers;
use lt_input_names::Base;
use lt_model::Scalar;
use lt_tree::typed::{Bound, Entity, Program, Tag, Tagged};
use std::alloc::{AllocError, Global};
use std::collections::HashMap;

impl<'p> FileNames<'p> {
    /// What the names and the tags of a program's file scope stand for.
    pub fn new(alloc: Global, program: &'p Program<'p>) -> Result<FileNames<'p>, AllocError>
        ensures program { IfOk result (λ it. it.program ≡ program.entry) }
        ensures names { IfOk result AreFileNames }
    {
        let names = names_of(alloc, &program.file.names)?;
        let tags = tags_of(alloc, &program.file.tags)?;
        Ok(FileNames {
            program,
            names,
            tags,
        })
    }

    fn entity(&self, name: &[u8]) -> Option<Entity>
        requires { AreFileNames self.now }
        ensures { result ≡ entity_among name.now self.now.program.now.file.names.items }
    {
        self.names.get(name).copied()
    }

    fn tagged(&self, tag: &[u8]) -> Option<Tagged>
        requires { AreFileNames self.now }
        ensures { result ≡ tag_among tag.now self.now.program.now.file.tags.items }
    {
        self.tags.get(tag).copied()
    }

    /// The type for which a name stands, behind which only qualifiers may stand.
    pub fn typedef(&self, name: &[u8], others: &[&[u8]]) -> Option<Base>
        requires { AreFileNames self.now }
        ensures { option_map (base_of (types_at self.now)) result ≡ if_qualifiers (texts others.now) (typedef_named (bound_among name.now (file_at self.now).names)) }
    {
        if !are_qualifiers(others) {
            return None;
        }
        typedef_base(self.entity(name))
    }

    /// The struct that a tag names, behind which only qualifiers may stand.
    pub fn structure(&self, tokens: &[&[u8]]) -> Option<Base>
        requires { AreFileNames self.now }
        ensures { option_map (base_of (types_at self.now)) result ≡ tag_type (file_at self.now) struct_named (texts tokens.now) }
    {
        let (tag, others) = tokens.split_first()?;
        if !are_qualifiers(others) {
            return None;
        }
        struct_base(self.tagged(tag))
    }

    /// The enum that a tag names, behind which only qualifiers may stand.
    pub fn enumeration(&self, tokens: &[&[u8]]) -> Option<Base>
        requires { AreFileNames self.now }
        ensures { option_map (base_of (types_at self.now)) result ≡ tag_type (file_at self.now) enum_named (texts tokens.now) }
    {
        let (tag, others) = tokens.split_first()?;
        if !are_qualifiers(others) {
            return None;
        }
        enum_base(self.tagged(tag))
    }
}

// What the first of each name stands for.
fn names_of<'p>(alloc: Global, bounds: &'p [Bound]) -> Result<HashMap<&'p [u8], Entity>, AllocError>
    ensures { IfOk result (λ names. (name : List ℕ) → found_in names name ≡ entity_among name bounds.now) }
{
    let mut names = HashMap::new(alloc);
    for it in bounds {
        put_first(&mut names, it.name.as_slice(), it.entity)?;
    }
    Ok(names)
}

// What the first tag of each name stands for.
fn tags_of<'p>(alloc: Global, tags: &'p [Tag]) -> Result<HashMap<&'p [u8], Tagged>, AllocError>
    ensures { IfOk result (λ them. (name : List ℕ) → found_in them name ≡ tag_among name tags.now) }
{
    let mut them = HashMap::new(alloc);
    for it in tags {
        put_first(&mut them, it.name.as_slice(), it.tagged)?;
    }
    Ok(them)
}

fn typedef_base(entity: Option<Entity>) -> Option<Base>
    ensures { result ≡ spec.typedef_base entity }
{
    match entity? {
        Entity::Typedef(t) => Some(Base::Row(t)),
        Entity::Object { .. } | Entity::Function | Entity::Enumerator(_) => None,
    }
}

fn struct_base(tagged: Option<Tagged>) -> Option<Base>
    ensures { result ≡ spec.struct_base tagged }
{
    match tagged? {
        Tagged::Struct(number) => Some(Base::Struct(number)),
        Tagged::Enum(_) => None,
    }
}

fn enum_base(tagged: Option<Tagged>) -> Option<Base>
    ensures { result ≡ spec.enum_base tagged }
{
    match tagged? {
        Tagged::Struct(_) => None,
        Tagged::Enum(is_complete) => {
            if is_complete {
                Some(Base::Num(Scalar::Int))
            } else {
                None
            }
        }
    }
}
