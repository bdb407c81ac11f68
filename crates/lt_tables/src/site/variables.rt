// How the code of a function names objects.

ghost use Rattle.std.specs.Prelude.{◌≡◌, IfOk, map};
ghost use Rattle.lt_meaning.specs.Expressions.{shape};
ghost use Rattle.lt_meaning.specs.Statements.{type_of_object};
ghost use Rattle.lt_meaning.specs.Runs.{variable_of, other_variable, locals_of};
ghost use Rattle.lt_tables.specs.Views.{program_at, function_at};

use crate::locals::locals_of;
use crate::places::{place_of, places_of};
use crate::site::Site;
use crate::tables::Tables;
use lt_ir::Variable;
use lt_model::Shape;
use lt_tree::typed::Function;
use std::alloc::{AllocError, Global};

impl<'t> Site<'t> {
    /// What is known of a function of a program.
    pub fn new(
        alloc: Global,
        tables: &'t Tables<'t>,
        function: &'t Function,
    ) -> Result<Site<'t>, AllocError>
        ensures tables { IfOk result (λ site. site.tables ≡ tables.entry) }
        ensures function { IfOk result (λ site. site.function ≡ function.entry) }
    {
        let locals = locals_of(alloc, &function.body)?;
        Ok(Site {
            tables,
            function,
            parameters: places_of(alloc, &function.parameters)?,
            locals: places_of(alloc, &locals)?,
            count: place_of(locals.len())?,
        })
    }

    /// How the code of the function names an object.
    pub fn variable(&self, number: u32) -> Variable
        ensures { result ≡ variable_of (program_at self.now.tables.now) (function_at self.now) number }
    {
        match self.parameters.get(&number) {
            Some(k) => Variable::Parameter(*k),
            None => self.other_variable(number),
        }
    }

    // How it names an object that is no parameter.
    fn other_variable(&self, number: u32) -> Variable
        ensures { result ≡ other_variable (program_at self.now.tables.now) (locals_of (function_at self.now).body) number }
    {
        match self.tables.static_number(number) {
            Some(k) => Variable::Static(k),
            None => match self.locals.get(&number) {
                Some(k) => Variable::Local(*k),
                None => Variable::Local(self.count),
            },
        }
    }

    /// The shapes of the objects that its statements begin, in order.
    pub fn local_shapes(&self, alloc: Global) -> Result<Vec<Shape>, AllocError>
        ensures { IfOk result (λ all. all.items ≡ map (λ n. shape (program_at self.now.tables.now) (type_of_object (program_at self.now.tables.now) n)) (locals_of (function_at self.now).body)) }
    {
        let locals = locals_of(alloc, &self.function.body)?;
        self.tables.object_shapes(alloc, &locals)
    }
}
