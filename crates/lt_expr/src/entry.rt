// Calls for readers of declarations and statements.

ghost use Rattle.lt_tree.specs.View.{expression_of};
ghost use Rattle.lt_tree.specs.Records.{specifiers_of, declarator_of};
ghost use Rattle.lt_expr.specs.FoundView.{type_name_of};
ghost use Rattle.lt_expr.specs.Namings.{naming_of};
ghost use Rattle.lt_expr.specs.Parsing.{rest_of, scope_of, Gives};
ghost use Rattle.lt_expr.specs.Reading as reading;

use crate::naming::Naming;
use crate::parser::Parser;
use lt_tree::{Declarator, Expr, Specifiers, Stop, TypeName};

impl<'a> Parser<'a> {
    /// expr = marked (',' marked)*
    pub fn expression(&mut self, depth: usize) -> Result<Expr, Stop>
        ensures { Gives expression_of self.old self.new result (reading.expression depth (scope_of self.old) (rest_of self.old)) }
    {
        Ok(Box::into_inner(self.boxed_expression(depth)?))
    }

    /// assign = cond | unary ASSIGNOP assign
    pub fn assignment(&mut self, depth: usize) -> Result<Expr, Stop>
        ensures { Gives expression_of self.old self.new result (reading.assignment depth (scope_of self.old) (rest_of self.old)) }
    {
        Ok(Box::into_inner(self.boxed_assignment(depth)?))
    }

    /// cond = or | or '?' expr ':' cond
    pub fn conditional(&mut self, depth: usize) -> Result<Expr, Stop>
        ensures { Gives expression_of self.old self.new result (reading.conditional depth (scope_of self.old) (rest_of self.old)) }
    {
        Ok(Box::into_inner(self.boxed_conditional(depth)?))
    }

    /// typename = specs abstract?
    pub fn type_name(&mut self, depth: usize) -> Result<TypeName, Stop>
        ensures { Gives type_name_of self.old self.new result (reading.type_name depth (scope_of self.old) (rest_of self.old)) }
    {
        Ok(Box::into_inner(self.boxed_type_name(depth)?))
    }

    /// specs: one or more. The enumerators in them aren't declared behind.
    pub fn specifiers(&mut self, depth: usize) -> Result<Specifiers, Stop>
        ensures { Gives specifiers_of self.old self.new result (reading.specifiers depth (scope_of self.old) (rest_of self.old)) }
    {
        let around = self.open_list();
        let specifiers = self.inner_specifiers(depth)?;
        self.close_list(around);
        Ok(specifiers)
    }

    /// A declarator; where it may lack a name, it may be missing as a whole. Nothing in it is declared behind.
    pub fn declarator(&mut self, depth: usize, naming: Naming) -> Result<Declarator, Stop>
        ensures { Gives declarator_of self.old self.new result (reading.declarator depth (scope_of self.old) (naming_of naming) (rest_of self.old)) }
    {
        let around = self.open_list();
        let declarator = self.inner_declarator(depth, naming)?;
        self.close_list(around);
        Ok(declarator)
    }
}
