//! What the types of a program's table are, in one walk over its rows.

ghost use Rattle.std.specs.Prelude.{◌≡◌, IfOk, option_map};
ghost use Rattle.lt_tree.specs.Typing.Types.{scalar_of, target_of, struct_of, is_void, is_floating, is_scalar};
ghost use Rattle.lt_tree.specs.Typing.TypeRows.{type_in};
ghost use Rattle.lt_tree.specs.Typing.EntityView.{structs_of};
ghost use Rattle.lt_tree.specs.Typing.Extents.{has_size};
ghost use Rattle.lt_input_names.specs.Blocks.{program_types};
ghost use Rattle.lt_input_names.specs.Kinds.{AreFacts, AreKinds, array_of, bare_array_of, elements_in};

use crate::facts::{Elements, Facts, Kind, facts_at, facts_of_row};
use lt_model::Scalar;
use lt_tree::typed::{Program, TypeId};
use std::alloc::{AllocError, Global};

/// What the types of a program are.
#[derive(Drop)]
pub struct Kinds<'p> {
    pub program: &'p Program<'p>,
    /// By the places of the table.
    facts: Vec<Facts>,
}

impl<'p> Kinds<'p> {
    /// What the types of a program are.
    pub fn new(alloc: Global, program: &'p Program<'p>) -> Result<Kinds<'p>, AllocError>
        ensures program { IfOk result (λ kinds. kinds.program ≡ program.entry) }
        ensures kinds { IfOk result AreKinds }
    {
        let mut facts = Vec::new(alloc);
        for row in &program.table {
            let it = facts_of_row(&facts, &program.structs, row);
            facts.push(it)?;
        }
        Ok(Kinds { program, facts })
    }

    fn facts(&self, t: TypeId) -> Facts
        requires { AreKinds self.now }
        ensures { AreFacts (structs_of (program_types self.now.program.now) self.now.program.now.structs.items) (program_types self.now.program.now) (type_in (program_types self.now.program.now) t) result }
    {
        facts_at(&self.facts, t)
    }

    /// The integer type that a type is.
    pub fn scalar(&self, t: TypeId) -> Option<Scalar>
        requires { AreKinds self.now }
        ensures { result ≡ scalar_of (type_in (program_types self.now.program.now) t) }
    {
        match self.facts(t).kind {
            Kind::Integer(scalar) => Some(scalar),
            Kind::Pointer(_) | Kind::Other => None,
        }
    }

    /// What a type points to.
    pub fn target(&self, t: TypeId) -> Option<TypeId>
        requires { AreKinds self.now }
        ensures { option_map (type_in (program_types self.now.program.now)) result ≡ target_of (type_in (program_types self.now.program.now) t) }
    {
        match self.facts(t).kind {
            Kind::Pointer(target) => Some(target),
            Kind::Integer(_) | Kind::Other => None,
        }
    }

    /// What the elements of an array are.
    pub fn array(&self, t: TypeId) -> Option<Elements>
        requires { AreKinds self.now }
        ensures { option_map (elements_in (program_types self.now.program.now)) result ≡ array_of (type_in (program_types self.now.program.now) t) }
    {
        self.facts(t).array
    }

    /// What the elements of an array are, qualifiers aside.
    pub(crate) fn bare_array(&self, t: TypeId) -> Option<Elements>
        requires { AreKinds self.now }
        ensures { option_map (elements_in (program_types self.now.program.now)) result ≡ bare_array_of (type_in (program_types self.now.program.now) t) }
    {
        self.facts(t).bare_array
    }

    /// The number of the struct that a type is.
    pub fn struct_number(&self, t: TypeId) -> Option<u32>
        requires { AreKinds self.now }
        ensures { result ≡ struct_of (type_in (program_types self.now.program.now) t) }
    {
        self.facts(t).number
    }

    /// Whether a type is void.
    pub(crate) fn is_void(&self, t: TypeId) -> bool
        requires { AreKinds self.now }
        ensures { result ≡ is_void (type_in (program_types self.now.program.now) t) }
    {
        self.facts(t).is_void
    }

    /// Whether a type is a floating type.
    pub(crate) fn is_floating(&self, t: TypeId) -> bool
        requires { AreKinds self.now }
        ensures { result ≡ is_floating (type_in (program_types self.now.program.now) t) }
    {
        self.facts(t).is_floating
    }

    /// Whether a type is an integer or a pointer.
    pub fn is_scalar(&self, t: TypeId) -> bool
        requires { AreKinds self.now }
        ensures { result ≡ is_scalar (type_in (program_types self.now.program.now) t) }
    {
        match self.facts(t).kind {
            Kind::Integer(_) | Kind::Pointer(_) => true,
            Kind::Other => false,
        }
    }

    /// Whether a type has a size.
    pub fn has_size(&self, t: TypeId) -> bool
        requires { AreKinds self.now }
        ensures { result ≡ has_size (structs_of (program_types self.now.program.now) self.now.program.now.structs.items) (type_in (program_types self.now.program.now) t) }
    {
        let facts = self.facts(t);
        facts.is_complete && !facts.are_elements_floating
    }
}
