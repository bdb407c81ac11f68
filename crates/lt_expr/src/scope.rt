// The names that are declared within what is read: parameters and enumerators.

ghost use Rattle.std.specs.Prelude.{◌≡◌, ◌≤◌, ◌-◌, false, length, drop, Some, IfOk};
ghost use Rattle.lt_tree.specs.Records.{specifiers_of, declarator_of};
ghost use Rattle.lt_tree.specs.Scope as spec;
ghost use Rattle.lt_expr.specs.Parsing.{rest_of, scope_of, Hides};

use crate::parser::Parser;
use lt_model::Name;
use lt_tree::{Declarator, Specifiers};
use std::alloc::AllocError;

impl<'a> Parser<'a> {
    /// How many names were declared within.
    pub fn open_list(&self) -> usize
        ensures { result ≡ length self.now.inner }
    {
        self.inner.len()
    }

    /// Goes back to when so many names were declared within.
    pub fn close_list(&mut self, count: usize)
        requires { count ≤ length self.old.inner }
        ensures { self.new ≡ record self.old { inner = drop (length self.old.inner - count) self.old.inner } }
    {
        self.inner.back_to(count);
    }

    /// Declares the enumerators of specifiers.
    pub fn hide_specifiers(&mut self, specifiers: &Specifiers) -> Result<(), AllocError>
        ensures { IfOk result (λ _. Hides self.old self.new (spec.after_specifiers (specifiers_of specifiers.now) (scope_of self.old))) }
    {
        self.inner.hide_specifiers(specifiers)
    }

    /// Declares the name of a parameter.
    pub(crate) fn declare_parameter(&mut self, declarator: &Declarator) -> Result<(), AllocError>
        ensures { IfOk result (λ _. Hides self.old self.new (spec.after_name false (declarator_of declarator.now) (scope_of self.old))) }
    {
        self.inner.declare_name(declarator, false)
    }

    /// Declares an enumerator.
    pub(crate) fn declare_enumerator(&mut self, name: &Name) -> Result<(), AllocError>
        ensures { IfOk result (λ _. Hides self.old self.new (spec.declaring false (Some name.now) (scope_of self.old))) }
    {
        self.inner.declare(name, false)
    }
}
