ghost use Rattle.std.specs.Prelude.{◌≡◌, length, IfOk};
ghost use Rattle.lt_tree.specs.View.{qualifiers_of};
ghost use Rattle.lt_tree.specs.Typing.Types.{Void, Num, Pointer, Array, Struct, Function, Floating, adjusted, qualified, unqualified, value_type};
ghost use Rattle.lt_tree.specs.Typing.TypeRows.{type_in, all_in};
ghost use Rattle.lt_table.specs.TableBare.{AreBare};
ghost use Rattle.lt_table.specs.TableRows.{Makes};
ghost use Rattle.lt_table.specs.TypesValue.{Widens};

use super::Types;
use lt_model::{Quals, Scalar};
use lt_tree::typed::TypeId;
use std::alloc::AllocError;

/// The ids of types, which become rows where they aren't yet. There are no more than 2^32 rows, and of an id of no row no type is made: both end as
/// want of memory does.
impl Types {
    /// `void`.
    pub fn void(&mut self) -> Result<TypeId, AllocError>
        ensures widens { Widens self.old self.new }
        ensures made { Makes self.new.rows result (λ types. Void) }
    {
        self.table.void()
    }

    /// An integer type.
    pub fn num(&mut self, scalar: Scalar) -> Result<TypeId, AllocError>
        ensures widens { Widens self.old self.new }
        ensures made { Makes self.new.rows result (λ types. Num scalar) }
    {
        self.table.num(scalar)
    }

    /// A pointer to this type.
    pub fn pointer(&mut self, t: TypeId) -> Result<TypeId, AllocError>
        ensures widens { Widens self.old self.new }
        ensures made { Makes self.new.rows result (λ types. Pointer (type_in types t)) }
    {
        self.table.pointer(t)
    }

    /// So many elements of this type; 0 as long as the number is to come.
    pub fn array(&mut self, t: TypeId, length: u32) -> Result<TypeId, AllocError>
        ensures widens { Widens self.old self.new }
        ensures made { Makes self.new.rows result (λ types. Array (type_in types t) length) }
    {
        self.table.array(t, length)
    }

    /// By its place in the list of structs.
    pub fn structure(&mut self, number: u32) -> Result<TypeId, AllocError>
        ensures widens { Widens self.old self.new }
        ensures made { Makes self.new.rows result (λ types. Struct number) }
    {
        self.table.structure(number)
    }

    /// A function with this result and these parameters.
    pub fn function(
        &mut self,
        returned: TypeId,
        parameters: Vec<TypeId>,
        dots: bool,
    ) -> Result<TypeId, AllocError>
        ensures widens { Widens self.old self.new }
        ensures made { Makes self.new.rows result (λ types. Function (type_in types returned) (all_in types parameters.items) dots) }
    {
        self.table.function(returned, parameters, dots)
    }

    /// The one floating type.
    pub fn floating(&mut self) -> Result<TypeId, AllocError>
        ensures widens { Widens self.old self.new }
        ensures made { Makes self.new.rows result (λ types. Floating) }
    {
        self.table.floating()
    }

    /// The type with these qualifiers too: those of an array go to its elements, and a function has none.
    pub fn qualified(&mut self, quals: Quals, t: TypeId) -> Result<TypeId, AllocError>
        ensures widens { Widens self.old self.new }
        ensures made { Makes self.new.rows result (λ types. qualified (qualifiers_of quals) (type_in types t)) }
    {
        self.table.qualified(quals, t)
    }

    /// The type without its own qualifiers.
    pub fn unqualified(&mut self, t: TypeId) -> Result<TypeId, AllocError>
        ensures widens { Widens self.old self.new }
        ensures made { Makes self.new.rows result (λ types. unqualified (type_in types t)) }
    {
        self.table.unqualified(t).ok_or(AllocError)
    }

    /// The type of a parameter that is declared with this type.
    pub fn adjusted(&mut self, t: TypeId) -> Result<TypeId, AllocError>
        ensures widens { Widens self.old self.new }
        ensures made { Makes self.new.rows result (λ types. adjusted (type_in types t)) }
    {
        self.table.adjusted(t)
    }

    /// The type of an expression as a value: of an array, a pointer to its first element.
    pub fn value_type(&mut self, t: TypeId) -> Result<TypeId, AllocError>
        ensures widens { Widens self.old self.new }
        ensures made { Makes self.new.rows result (λ types. value_type (type_in types t)) }
    {
        self.table.value_type(t)
    }

    /// For each row that there is now the id of its type without qualifiers, also inside.
    pub fn bare_types(&mut self) -> Result<Vec<TypeId>, AllocError>
        ensures widens { Widens self.old self.new }
        ensures len { IfOk result (λ ids. length ids.items ≡ length self.old.rows) }
        ensures bare { IfOk result (λ ids. AreBare self.new.rows ids.items) }
    {
        self.table.bare_types()
    }
}
