//! The types of a program without qualifiers, each once, in a table of their own, to which types may be added.

ghost use Rattle.lt_tree.specs.Typing.Types.{Void};
ghost use Rattle.lt_tree.specs.Typing.TypeRows.{types_of_rows};
ghost use Rattle.lt_tables.specs.BareTypes.{HasId, HaveIds};
ghost use Rattle.lt_tables.specs.TypeNumbers.{AreNumbersOf, types_named};

use crate::bare::{BareRow, bare_of, bare_rows};
use crate::interned::InternedRows;
use crate::places::{place_of, places_of};
use crate::pointers::{keys_of, number_at};
use lt_model::Scalar;
use lt_table::TypeTable;
use lt_tree::typed::{Program, TypeId, TypeRow};
use std::alloc::{AllocError, Global};
use std::collections::BTreeMap;

/// The types of a program without qualifiers, each once.
#[derive(Drop)]
pub struct BareTypes<'p> {
    pub program: &'p Program<'p>,
    rows: InternedRows,
    /// Of the rows of the program's table.
    bare: Vec<BareRow>,
    void: BareRow,
    /// The places of types among those of the program, by ids.
    places: BTreeMap<u32, u32>,
    /// Of a type that is none of them.
    other: u32,
    ghost rows_hold: { HaveIds rows (types_of_rows program.now.table.items) bare.items void },
    ghost void_holds: { HasId rows Void void.id },
    ghost numbers_hold: { AreNumbersOf (types_named program.now.table.items program.now.types.items) places other rows },
}

impl<'p> BareTypes<'p> {
    ghost use Rattle.std.specs.Prelude.{◌≡◌, length, IfOk};
    ghost use Rattle.lt_tree.specs.Typing.Types.{CType, Void, Num, Pointer, Struct, Floating, bare, same};
    ghost use Rattle.lt_tree.specs.Typing.TypeRows.{type_in, type_of_row, types_of_rows};
    ghost use Rattle.lt_tree.specs.Typing.ProgramView.{program_of};
    ghost use Rattle.lt_table.specs.TableRows.{Grows, Makes};
    ghost use Rattle.lt_tables.specs.SimpleRows.{IsSimple};
    ghost use Rattle.lt_tables.specs.Interned.{IsIdOf, Keeps, number_among};

    /// The types of a program.
    pub fn new(alloc: Global, program: &'p Program<'p>) -> Result<BareTypes<'p>, AllocError>
        ensures { IfOk result (λ it. it.program ≡ program.entry) }
    {
        let mut table = TypeTable::new(alloc);
        let id = table.void()?;
        let void = BareRow { id, is_bare: true };
        let bare = bare_rows(alloc, &mut table, void, &program.table)?;
        let list = table.into_rows()?;
        let rows = InternedRows::new(alloc, list)?;
        let keys = keys_of(alloc, u32::MAX, &bare, void, &program.types)?;
        let places = places_of(alloc, &keys)?;
        let other = place_of(program.types.len())?;
        Ok(BareTypes {
            program,
            rows,
            bare,
            void,
            places,
            other,
        })
    }

    /// Whether two types of the program's table are the same, qualifiers aside.
    pub fn same(&self, t: TypeId, u: TypeId) -> bool
        ensures { result ≡ same (bare (type_in (types_of_rows self.now.program.now.table.items) t)) (bare (type_in (types_of_rows self.now.program.now.table.items) u)) }
    {
        self.rows.stand_once();
        self.of_row(t).place == self.of_row(u).place
    }

    /// The id of a type of the program's table.
    pub fn of_row(&self, t: TypeId) -> TypeId
        ensures { IsIdOf self.now (type_in (types_of_rows self.now.program.now.table.items) t) result }
    {
        bare_of(&self.bare, self.void, t).id
    }

    pub fn void(&self) -> TypeId
        ensures { IsIdOf self.now Void result }
    {
        self.void.id
    }

    pub fn num(&mut self, scalar: Scalar) -> Result<TypeId, AllocError>
        ensures keeps { Keeps self.old self.new }
        ensures id { IfOk result (IsIdOf self.new (Num scalar)) }
    {
        self.put(TypeRow::Num(scalar))
    }

    pub fn floating(&mut self) -> Result<TypeId, AllocError>
        ensures keeps { Keeps self.old self.new }
        ensures id { IfOk result (IsIdOf self.new Floating) }
    {
        self.put(TypeRow::Floating)
    }

    pub fn structure(&mut self, number: u32) -> Result<TypeId, AllocError>
        ensures keeps { Keeps self.old self.new }
        ensures id { IfOk result (IsIdOf self.new (Struct number)) }
    {
        self.put(TypeRow::Struct(number))
    }

    /// The id of a pointer to the type of an id. One of no type stays.
    pub fn pointer(&mut self, target: TypeId) -> Result<TypeId, AllocError>
        ensures keeps { Keeps self.old self.new }
        ensures id { (t : CType) → IsIdOf self.old t target → IfOk result (IsIdOf self.new (Pointer t)) }
    {
        if target.place as usize >= self.rows.len() {
            return Ok(target);
        }
        self.put(TypeRow::Pointer(target))
    }

    // The id of the type of a row, which goes last where it isn't there yet.
    fn put(&mut self, row: TypeRow) -> Result<TypeId, AllocError>
        requires { IsSimple (length self.old.rows) row }
        ensures keeps { Keeps self.old self.new }
        ensures grows { Grows self.old.rows self.new.rows }
        ensures made { Makes self.new.rows result (λ types. type_of_row types row) }
    {
        self.rows.put(row)
    }

    /// The number by which memory names pointers of a type: its place among the types of the program, or how many these are
    /// where it is none of them.
    pub fn number(&self, id: TypeId) -> u32
        ensures { (t : CType) → IsIdOf self.now t id → result ≡ number_among (program_of self.now.program.now).types t }
    {
        self.rows.stand_once();
        number_at(&self.places, self.other, id)
    }
}
