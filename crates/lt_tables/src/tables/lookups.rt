// What is looked up in the tables of a program.

ghost use Rattle.std.specs.Prelude.{◌≡◌, IfOk, map};
ghost use Rattle.lt_tree.specs.Typing.Types.{is_struct, is_void};
ghost use Rattle.lt_tree.specs.Typing.TypeRows.{type_in};
ghost use Rattle.lt_meaning.specs.Expressions.{cell_type, scalar_in, shape};
ghost use Rattle.lt_meaning.specs.Runs.{stops, initials, name_of_object};
ghost use Rattle.lt_tables.specs.Lookups.{AreFactsOf, name_among, function_number, label_number, static_number, stubs_of};
ghost use Rattle.lt_tree.specs.Typing.ProgramView.{program_of};
ghost use Rattle.lt_meaning.specs.Statements.{type_of_object, is_sealed_object};
ghost use Rattle.lt_tables.specs.Views.{types_at, program_at, label_in_code};

use crate::facts::{TypeFacts, facts_at, facts_of_rows, facts_of_void};
use crate::layouts::Layouts;
use crate::objects::numbers_of;
use crate::places::{ids_of, names_of, names_without, places_of, places_of_names};
use crate::pointers::pointer_numbers;
use crate::tables::Tables;
use lt_ir::{LabelInfo, Static};
use lt_model::{CellType, Name, Scalar, Sequence, Shape};
use lt_tree::typed::{self, Life, Program, TypeId};
use std::alloc::{AllocError, Global};

impl<'p> Tables<'p> {
    /// The tables of a program.
    pub fn new(alloc: Global, program: &'p Program<'p>) -> Result<Tables<'p>, AllocError>
        ensures program { IfOk result (λ tables. tables.program ≡ program.entry) }
        ensures stubs { IfOk result (λ tables. tables.stubs.items ≡ stubs_of (program_of program.now)) }
    {
        let numbers = pointer_numbers(alloc, &program.table, &program.types)?;
        let other = facts_of_void(numbers.of_void);
        let types = facts_of_rows(alloc, &program.table, &numbers.of_rows, other)?;
        let ids = ids_of(alloc, &program.labels)?;
        let labels = places_of(alloc, &ids)?;
        let names = names_of(alloc, &program.functions)?;
        let functions = places_of_names(alloc, &names)?;
        let stubs = names_without(alloc, &program.declared, &functions)?;
        let stub_places = places_of_names(alloc, &stubs)?;
        let statics = numbers_of(alloc, &program.objects)?;
        let layouts = Layouts::new(alloc, program)?;
        Ok(Tables {
            program,
            stubs,
            types,
            other,
            labels,
            functions,
            stub_places,
            statics,
            layouts,
        })
    }

    // What is known of a type.
    pub(super) fn facts(&self, id: TypeId) -> TypeFacts
        ensures { AreFactsOf (program_at self.now) (type_in (types_at self.now) id) result }
    {
        facts_at(&self.types, self.other, id)
    }

    /// How memory names a scalar type.
    pub fn cell_type(&self, id: TypeId) -> CellType
        ensures { result ≡ cell_type (program_at self.now) (type_in (types_at self.now) id) }
    {
        self.facts(id).cell
    }

    /// The integer type that a type is; `int` for another.
    pub fn scalar(&self, id: TypeId) -> Scalar
        ensures { result ≡ scalar_in (type_in (types_at self.now) id) }
    {
        self.facts(id).scalar
    }

    /// Whether a type is a struct.
    pub fn is_struct(&self, id: TypeId) -> bool
        ensures { result ≡ is_struct (type_in (types_at self.now) id) }
    {
        self.facts(id).is_struct
    }

    /// Whether a type is void.
    pub fn is_void(&self, id: TypeId) -> bool
        ensures { result ≡ is_void (type_in (types_at self.now) id) }
    {
        self.facts(id).is_void
    }

    /// The cells and the size of an object of the program.
    pub fn object_shape(&self, alloc: Global, number: u32) -> Result<Shape, AllocError>
        ensures { IfOk result (λ it. it ≡ shape (program_at self.now) (type_of_object (program_at self.now) number)) }
    {
        match self.program.objects.get(number as usize) {
            None => Ok(Shape {
                cells: Sequence::new(Vec::new(alloc)),
                size: 0,
            }),
            Some(object) => self.shape(alloc, object.ty),
        }
    }

    /// The cells and the sizes of objects of the program.
    pub fn object_shapes(&self, alloc: Global, numbers: &[u32]) -> Result<Vec<Shape>, AllocError>
        ensures { IfOk result (λ all. all.items ≡ map (λ n. shape (program_at self.now) (type_of_object (program_at self.now) n)) numbers.now) }
    {
        let mut shapes = Vec::new(alloc);
        for number in numbers {
            shapes.push(self.object_shape(alloc, *number)?)?;
        }
        Ok(shapes)
    }

    /// Whether an object of the program can't be written once it has its first value.
    pub fn is_sealed(&self, number: u32) -> bool
        ensures { result ≡ is_sealed_object (program_at self.now) number }
    {
        match self.program.objects.get(number as usize) {
            None => false,
            Some(object) => self.is_object_sealed(object),
        }
    }

    /// The name of an object of the program.
    pub fn object_name(&self, alloc: Global, number: u32) -> Result<Name, AllocError>
        ensures { IfOk result (λ it. it ≡ name_of_object (program_at self.now) number) }
    {
        match self.program.objects.get(number as usize) {
            None => Name::new(alloc, &[]),
            Some(object) => Name::new(alloc, object.name.as_slice()),
        }
    }

    /// The labels of the program, in order.
    pub fn labels(&self, alloc: Global) -> Result<Vec<LabelInfo>, AllocError>
        ensures { IfOk result (λ all. all.items ≡ map (λ it. record { id = it.id; tag = it.tag; bound = it.bound }) (program_at self.now).labels) }
    {
        copied_labels(alloc, &self.program.labels)
    }

    /// The place of a label with this id.
    pub fn label(&self, id: u32) -> Option<u32>
        ensures { result ≡ label_number (program_at self.now) id }
    {
        self.labels.get(&id).copied()
    }

    /// The place of the function of this name among those with a body.
    pub fn function(&self, name: &Name) -> Option<u32>
        ensures { result ≡ function_number (program_at self.now) name.now }
    {
        self.functions.get(name.as_slice()).copied()
    }

    /// The place of the function of this name among those without a body that have values.
    pub fn stub(&self, name: &Name) -> Option<u32>
        ensures { result ≡ name_among 0 name.now self.now.stubs.items }
    {
        self.stub_places.get(name.as_slice()).copied()
    }

    /// The number of an object among those that are there from the start.
    pub fn static_number(&self, number: u32) -> Option<u32>
        ensures { result ≡ static_number (program_at self.now) number }
    {
        self.statics.get(&number).copied()
    }
}

// Labels of a program, as graph code has them.
fn copied_labels(alloc: Global, labels: &[typed::LabelInfo]) -> Result<Vec<LabelInfo>, AllocError>
    ensures { IfOk result (λ all. all.items ≡ map label_in_code labels.now) }
{
    let mut all = Vec::new(alloc);
    for label in labels {
        all.push(copied_label(alloc, label)?)?;
    }
    Ok(all)
}

// A label of a program, as graph code has it.
fn copied_label(alloc: Global, label: &typed::LabelInfo) -> Result<LabelInfo, AllocError>
    ensures { IfOk result (λ it. it ≡ label_in_code label.now) }
{
    Ok(LabelInfo {
        id: label.id,
        tag: Name::new(alloc, label.tag.as_slice())?,
        bound: Sequence::new(copied_names(alloc, &label.bound)?),
    })
}

// The same names.
fn copied_names(alloc: Global, names: &[Name]) -> Result<Vec<Name>, AllocError>
    ensures { IfOk result (λ all. all.items ≡ names.now) }
{
    let mut all = Vec::new(alloc);
    for name in names {
        all.push(Name::new(alloc, name.as_slice())?)?;
    }
    Ok(all)
}

/// Whether a function of this name ends the run where it has no body.
pub fn stops(name: &Name) -> bool
    ensures { result ≡ stops name.now }
{
    let bytes = name.as_slice();
    bytes == b"abort".as_slice()
        || bytes == b"exit".as_slice()
        || bytes == b"_Exit".as_slice()
        || bytes == b"__assert_fail".as_slice()
}
