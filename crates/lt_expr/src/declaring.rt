// Declaring names, for those that read declarations and statements.

ghost use Rattle.std.specs.Prelude.{◌≡◌, IfOk};
ghost use Rattle.lt_tree.specs.View.{expression_of, mark_of};
ghost use Rattle.lt_tree.specs.Records.{declarator_of};
ghost use Rattle.lt_tree.specs.Scope as spec;
ghost use Rattle.lt_expr.specs.Parsing.{rest_of, scope_of, Hides};

use crate::parser::Parser;
use lt_tree::{Declarator, Expr, Mark};
use std::alloc::{AllocError, Global};

impl<'a> Parser<'a> {
    /// The allocator that the parser was made with.
    pub fn alloc(&self) -> Global
        ensures { result ≡ self.now.alloc }
    {
        self.alloc
    }

    /// Declares the enumerators of a declarator, and its name, which is a typedef name or isn't.
    pub fn declare(&mut self, declarator: &Declarator, is_type: bool) -> Result<(), AllocError>
        ensures { IfOk result (λ _. Hides self.old self.new (spec.after_declarator is_type (declarator_of declarator.now) (scope_of self.old))) }
    {
        self.inner.declare_declarator(declarator, is_type)
    }

    /// Declares the enumerators of an expression.
    pub fn hide_expression(&mut self, e: &Expr) -> Result<(), AllocError>
        ensures { IfOk result (λ _. Hides self.old self.new (spec.after_expression (expression_of e.now) (scope_of self.old))) }
    {
        self.inner.hide_expression(e)
    }

    /// Declares the enumerators of a mark.
    pub fn hide_mark(&mut self, mark: &Mark) -> Result<(), AllocError>
        ensures { IfOk result (λ _. Hides self.old self.new (spec.after_mark (mark_of mark.now) (scope_of self.old))) }
    {
        self.inner.hide_mark(mark)
    }
}
