ghost use Rattle.std.specs.Prelude.{◌≡◌, length, Some, slice_get, IfOk};
ghost use Rattle.lt_tree.specs.Typing.Types.{bare};
ghost use Rattle.lt_tree.specs.Typing.TypeRows.{type_in};
ghost use Rattle.lt_table.specs.TableRows.{Grows, Makes};
ghost use Rattle.lt_table.specs.TableBare.{AreBare, BareOf};

use super::{TypeTable, id_of};
use lt_tree::typed::{TypeId, TypeRow};
use std::alloc::{AllocError, Global};

impl TypeTable {
    /// For each row that there is now the id of its type without qualifiers, also inside. It is one walk over the rows, since each is made of rows
    /// before it.
    pub fn bare_types(&mut self) -> Result<Vec<TypeId>, AllocError>
        ensures grows { Grows self.old self.new }
        ensures len { IfOk result (λ ids. length ids.items ≡ length self.old) }
        ensures bare { IfOk result (λ ids. AreBare self.new ids.items) }
    {
        let count = self.len();
        let mut ids = Vec::new(self.alloc);
        for place in 0..count {
            let t = id_of(place)?;
            let id = self.bare_row(t, &ids)?;
            ids.push(id)?;
        }
        Ok(ids)
    }

    // The id of a row's type without qualifiers, where those of the rows before it are there.
    fn bare_row(&mut self, t: TypeId, ids: &[TypeId]) -> Result<TypeId, AllocError>
        requires { AreBare self.old ids.now }
        ensures grows { Grows self.old self.new }
        ensures made { Makes self.new result (λ types. bare (type_in types t)) }
    {
        let alloc = self.alloc;
        let Some(row) = self.row(t) else {
            return Err(AllocError);
        };
        match row {
            TypeRow::Pointer(target) => {
                let target = bare_of(ids, *target)?;
                self.pointer(target)
            }
            TypeRow::Array(element, length) => {
                let length = *length;
                let element = bare_of(ids, *element)?;
                self.array(element, length)
            }
            TypeRow::Function(function) => {
                let dots = function.dots;
                let returned = bare_of(ids, function.result)?;
                let parameters = all_bare(alloc, ids, &function.parameters)?;
                self.function(returned, parameters, dots)
            }
            TypeRow::Qualified(_, unqualified) => bare_of(ids, *unqualified),
            _ => Ok(t),
        }
    }
}

fn bare_of(ids: &[TypeId], t: TypeId) -> Result<TypeId, AllocError>
    ensures { IfOk result (λ u. slice_get ids.now t.place ≡ Some u) }
{
    match ids.get(t.place as usize) {
        Some(u) => Ok(*u),
        None => Err(AllocError),
    }
}

fn all_bare(alloc: Global, ids: &[TypeId], types: &[TypeId]) -> Result<Vec<TypeId>, AllocError>
    ensures { IfOk result (λ us. BareOf ids.now types.now us.items) }
{
    let mut all = Vec::new(alloc);
    for t in types {
        let id = bare_of(ids, *t)?;
        all.push(id)?;
    }
    Ok(all)
}
