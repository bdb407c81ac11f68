ghost use Rattle.std.specs.Prelude.{◌≡◌, false, IfOk, OnOk};
ghost use Rattle.lt_tree.specs.View.{qualifiers_of};
ghost use Rattle.lt_tree.specs.Typing.Types.{Void, Num, Pointer, Array, Struct, Function, Floating, is_array, both, add_qualifiers, adjusted, qualified, value_type};
ghost use Rattle.lt_tree.specs.Typing.TypeRows.{type_in, all_in, types_of_rows};
ghost use Rattle.lt_table.specs.TableRows.{StandsIn, AllStandIn, TakesQualifiers, Grows, Stays, Makes, arrays};

use super::TypeTable;
use super::kind::Kind;
use lt_model::{Quals, Scalar};
use lt_tree::typed::{FunctionType, TypeId, TypeRow};
use std::alloc::AllocError;

/// The ids of types, which become rows where they aren't yet. There are no more than 2^32 rows, and of an id of no row no type is made: both end as
/// want of memory does.
impl TypeTable {
    /// `void`.
    pub fn void(&mut self) -> Result<TypeId, AllocError>
        ensures grows { Grows self.old self.new }
        ensures made { Makes self.new result (λ types. Void) }
    {
        self.put(TypeRow::Void)
    }

    /// An integer type.
    pub fn num(&mut self, scalar: Scalar) -> Result<TypeId, AllocError>
        ensures grows { Grows self.old self.new }
        ensures made { Makes self.new result (λ types. Num scalar) }
    {
        self.put(TypeRow::Num(scalar))
    }

    /// A pointer to this type.
    pub fn pointer(&mut self, t: TypeId) -> Result<TypeId, AllocError>
        ensures grows { Grows self.old self.new }
        ensures made { Makes self.new result (λ types. Pointer (type_in types t)) }
    {
        self.known(t)?;
        self.put(TypeRow::Pointer(t))
    }

    /// So many elements of this type; 0 as long as the number is to come.
    pub fn array(&mut self, t: TypeId, length: u32) -> Result<TypeId, AllocError>
        ensures grows { Grows self.old self.new }
        ensures made { Makes self.new result (λ types. Array (type_in types t) length) }
    {
        self.known(t)?;
        self.put(TypeRow::Array(t, length))
    }

    /// By its place in the list of structs.
    pub fn structure(&mut self, number: u32) -> Result<TypeId, AllocError>
        ensures grows { Grows self.old self.new }
        ensures made { Makes self.new result (λ types. Struct number) }
    {
        self.put(TypeRow::Struct(number))
    }

    /// A function with this result and these parameters.
    pub fn function(
        &mut self,
        returned: TypeId,
        parameters: Vec<TypeId>,
        dots: bool,
    ) -> Result<TypeId, AllocError>
        ensures grows { Grows self.old self.new }
        ensures made { Makes self.new result (λ types. Function (type_in types returned) (all_in types parameters.items) dots) }
    {
        self.known(returned)?;
        self.all_known(&parameters)?;
        self.put(TypeRow::Function(FunctionType {
            result: returned,
            parameters,
            dots,
        }))
    }

    /// The one floating type.
    pub fn floating(&mut self) -> Result<TypeId, AllocError>
        ensures grows { Grows self.old self.new }
        ensures made { Makes self.new result (λ types. Floating) }
    {
        self.put(TypeRow::Floating)
    }

    /// The type with these qualifiers too: those of an array go to its elements, and a function has none.
    pub fn qualified(&mut self, quals: Quals, t: TypeId) -> Result<TypeId, AllocError>
        ensures grows { Grows self.old self.new }
        ensures made { Makes self.new result (λ types. qualified (qualifiers_of quals) (type_in types t)) }
    {
        let (element, lengths) = self.unwound(t)?;
        let made = self.qualified_element(quals, element)?;
        self.wound(lengths, made)
    }

    /// The type of a parameter that is declared with this type.
    pub fn adjusted(&mut self, t: TypeId) -> Result<TypeId, AllocError>
        ensures grows { Grows self.old self.new }
        ensures made { Makes self.new result (λ types. adjusted (type_in types t)) }
    {
        match self.kind(t) {
            None => Err(AllocError),
            Some(Kind::Array(element, _)) => self.pointer(element),
            Some(Kind::Function) => self.pointer(t),
            Some(_) => Ok(t),
        }
    }

    /// The type of an expression as a value: of an array, a pointer to its first element.
    pub fn value_type(&mut self, t: TypeId) -> Result<TypeId, AllocError>
        ensures grows { Grows self.old self.new }
        ensures made { Makes self.new result (λ types. value_type (type_in types t)) }
    {
        match self.kind(t) {
            None => Err(AllocError),
            Some(Kind::Array(element, _)) => self.pointer(element),
            Some(_) => self.unqualified(t).ok_or(AllocError),
        }
    }

    // Whether the id is of a row.
    fn known(&self, t: TypeId) -> Result<(), AllocError>
        ensures { OnOk result (StandsIn (types_of_rows self.now) t) }
    {
        if (t.place as usize) < self.len() {
            Ok(())
        } else {
            Err(AllocError)
        }
    }

    fn all_known(&self, types: &[TypeId]) -> Result<(), AllocError>
        ensures { OnOk result (AllStandIn (types_of_rows self.now) types.now) }
    {
        for t in types {
            self.known(*t)?;
        }
        Ok(())
    }

    // The type of an array's elements, and of theirs, with the lengths of the arrays, the outermost first.
    fn unwound(&self, t: TypeId) -> Result<(TypeId, Vec<u32>), AllocError>
        ensures wound { IfOk result (λ r. Stays self.now (λ types. type_in types t ≡ arrays r.1.items (type_in types r.0))) }
        ensures element { IfOk result (λ r. Stays self.now (λ types. is_array (type_in types r.0) ≡ false)) }
    {
        let mut lengths = Vec::new(self.alloc);
        let mut inner = t;
        'more: loop {
            match self.array_of(inner) {
                None => return Err(AllocError),
                Some(None) => return Ok((inner, lengths)),
                Some(Some((element, length))) => {
                    lengths.push(length)?;
                    inner = element;
                }
            }
        }
    }

    // Arrays of arrays of the type, the outermost length first.
    fn wound(&mut self, lengths: Vec<u32>, t: TypeId) -> Result<TypeId, AllocError>
        ensures grows { Grows self.old self.new }
        ensures made { Makes self.new result (λ types. arrays lengths.items (type_in types t)) }
    {
        let mut lengths = lengths;
        let mut made = t;
        while let Some(length) = lengths.pop() {
            made = self.array(made, length)?;
        }
        Ok(made)
    }

    // The type, which is no array, with these qualifiers too.
    fn qualified_element(&mut self, quals: Quals, t: TypeId) -> Result<TypeId, AllocError>
        requires { Stays self.old (λ types. is_array (type_in types t) ≡ false) }
        ensures grows { Grows self.old self.new }
        ensures made { Makes self.new result (λ types. qualified (qualifiers_of quals) (type_in types t)) }
    {
        self.known(t)?;
        let Some(row) = self.row(t) else {
            return Err(AllocError);
        };
        match row {
            TypeRow::Function(_) => Ok(t),
            TypeRow::Qualified(own, unqualified) => {
                let row = TypeRow::Qualified(both(*own, quals), *unqualified);
                self.put(row)
            }
            _ => self.with_qualifiers(quals, t),
        }
    }

    // The type with these qualifiers, if any.
    fn with_qualifiers(&mut self, quals: Quals, t: TypeId) -> Result<TypeId, AllocError>
        requires known { StandsIn (types_of_rows self.old) t }
        requires takes { TakesQualifiers (type_in (types_of_rows self.old) t) }
        ensures grows { Grows self.old self.new }
        ensures made { Makes self.new result (λ types. add_qualifiers (qualifiers_of quals) (type_in types t)) }
    {
        if quals.constant || quals.volatile {
            self.put(TypeRow::Qualified(quals, t))
        } else {
            Ok(t)
        }
    }
}

fn both(p: Quals, q: Quals) -> Quals
    ensures { qualifiers_of result ≡ both (qualifiers_of p) (qualifiers_of q) }
{
    Quals {
        constant: p.constant || q.constant,
        volatile: p.volatile || q.volatile,
    }
}
