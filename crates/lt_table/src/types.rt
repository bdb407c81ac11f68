// The types of a program with its structs: the table of structs suits the table of types.
mod makers;
mod queries;

ghost use Rattle.std.specs.Prelude.{◌≡◌, ◌++◌, ◌∷◌, [], None, Some, length, slice_set, IfOk, OnOk, OnErr};
ghost use Rattle.lt_table.specs.TableRows.{Grows};
ghost use Rattle.lt_table.specs.RowsOnce.{AreOnce};
ghost use Rattle.lt_table.specs.Allocator.{IsTheAllocator};

use crate::structs::StructTable;
use crate::table::TypeTable;
use lt_model::DataModel;
use lt_tree::typed::{Member, StructType, TypeRow};
use std::alloc::{AllocError, Global};
use std::marker::Model;

/// The types of a program, each once, and its structs, in a data model.
#[derive(Drop)]
pub struct Types {
    alloc: Global,
    table: TypeTable,
    structs: StructTable,
}

impl Model for Types {
    ghost use Rattle.lt_table.specs.TypesValue.{TypesValue};

    ghost Value = { TypesValue };

    ghost use Rattle.lt_table.specs.StructTables.{Suits, AreShared};

    ghost view = { λ t. record { model = t.structs.model; rows = t.table; structs = t.structs.structs.items } };

    ghost invariant = { λ t. Suits t.table t.structs × AreShared t.structs };
}

impl Types {
    /// No types and no structs.
    pub fn new(alloc: Global, model: DataModel) -> Types
        ensures { result ≡ record { model = model; rows = []; structs = [] } }
    {
        Types {
            alloc,
            table: TypeTable::new(alloc),
            structs: StructTable::new(alloc, model),
        }
    }

    /// Where it takes its memory: the global allocator.
    #[tactic(auto, unfolding(crate::specs::Allocator::IsTheAllocator))]
    pub fn alloc(&self) -> Global
        ensures { IsTheAllocator result }
    {
        self.alloc
    }

    /// The data model.
    pub fn model(&self) -> DataModel
        ensures { result ≡ self.now.model }
    {
        self.structs.model()
    }

    /// The table of types, for questions that need no structs.
    pub fn table(&self) -> &TypeTable
        ensures { result.now ≡ self.now.rows }
    {
        &self.table
    }

    /// One more struct, which is incomplete; its number.
    pub fn add_struct(&mut self) -> Result<u32, AllocError>
        ensures number { IfOk result (λ number. number ≡ length self.old.structs) }
        ensures added { OnOk result (self.new ≡ record self.old { structs = self.old.structs ++ record { members = None } ∷ [] }) }
        ensures same { OnErr result (self.new ≡ self.old) }
    {
        self.structs.add()
    }

    /// The struct of this number, which is incomplete, has these members. The type of each is complete: where one isn't, where there is no such
    /// struct or it has members already, this ends as want of memory does.
    pub fn complete_struct(&mut self, number: u32, members: Vec<Member>) -> Result<(), AllocError>
        ensures completed { OnOk result (self.new ≡ record self.old { structs = slice_set self.old.structs number (record { members = Some members }) }) }
        ensures same { OnErr result (self.new ≡ self.old) }
    {
        self.structs.complete(&self.table, number, members)
    }

    /// The rows of the types, of which each stands once, behind those that it is made of, and the structs.
    pub fn into_parts(self) -> Result<(Vec<TypeRow>, Vec<StructType>), AllocError>
        ensures rows { IfOk result (λ parts. parts.0.items ≡ self.rows) }
        ensures once { IfOk result (λ parts. AreOnce parts.0.items) }
        ensures structs { IfOk result (λ parts. parts.1.items ≡ self.structs) }
    {
        let rows = self.table.into_rows()?;
        Ok((rows, self.structs.into_list()))
    }
}
