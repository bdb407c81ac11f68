ghost use Rattle.std.specs.Prelude.{◌≡◌, IfOk};
ghost use Rattle.lt_tree.specs.View.{expression_of};
ghost use Rattle.lt_tree.specs.Records.{expressions_in, maybe_in};
ghost use Rattle.lt_tree.specs.Scope.{hiding, enumerators_in, enumerators_in_all, enumerators_in_maybe};

use crate::typedefs::Typedefs;
use lt_tree::Expr;
use std::alloc::AllocError;

impl Typedefs {
    /// Declares the enumerators of an expression.
    #[cycle(hide)]
    #[tactic(auto, using(crate::proofs::Hiding::hiding_both))]
    pub fn hide_expression(&mut self, e: &Expr) -> Result<(), AllocError>
        ensures { IfOk result (λ _. self.new ≡ hiding (enumerators_in (expression_of e.now)) self.old) }
    {
        match e {
            Expr::Name(_) | Expr::Constant(_) | Expr::Text(_) => Ok(()),
            Expr::Call(callee, arguments) => {
                self.hide_expression(callee)?;
                self.hide_expressions(arguments.as_slice())
            }
            Expr::Index(whole, index) => {
                self.hide_expression(whole)?;
                self.hide_expression(index)
            }
            Expr::Binary(_, left, right) => {
                self.hide_expression(left)?;
                self.hide_expression(right)
            }
            Expr::Logical(_, left, right) => {
                self.hide_expression(left)?;
                self.hide_expression(right)
            }
            Expr::Assign(_, target, value) => {
                self.hide_expression(target)?;
                self.hide_expression(value)
            }
            Expr::Conditional(test, left, right) => {
                self.hide_expression(test)?;
                self.hide_expression(left)?;
                self.hide_expression(right)
            }
            Expr::Member(whole, _) => self.hide_expression(whole),
            Expr::Arrow(pointer, _) => self.hide_expression(pointer),
            Expr::PostInc(target) => self.hide_expression(target),
            Expr::PostDec(target) => self.hide_expression(target),
            Expr::PreInc(target) => self.hide_expression(target),
            Expr::PreDec(target) => self.hide_expression(target),
            Expr::Unary(_, operand) => self.hide_expression(operand),
            Expr::SizeofExpr(operand) => self.hide_expression(operand),
            Expr::Decide(operand, _, _, _) => self.hide_expression(operand),
            Expr::After(operand, _, _) => self.hide_expression(operand),
            Expr::SizeofType(name) => self.hide_type_name(name),
            Expr::Cast(name, operand) => {
                self.hide_type_name(name)?;
                self.hide_expression(operand)
            }
            Expr::Comma(parts) => self.hide_expressions(parts.as_slice()),
            Expr::Marked(marks, value) => {
                self.hide_marks(marks.as_slice())?;
                self.hide_expression(value)
            }
        }
    }

    // Expressions in a row.
    #[cycle(hide)]
    fn hide_expressions(&mut self, list: &[Expr]) -> Result<(), AllocError>
        ensures { IfOk result (λ _. self.new ≡ hiding (enumerators_in_all (expressions_in list.now)) self.old) }
    {
        'expressions: for e in list {
            self.hide_expression(e)?;
        }
        Ok(())
    }

    // An expression that may be left out.
    #[cycle(hide)]
    pub(super) fn hide_maybe(&mut self, e: &Option<Box<Expr>>) -> Result<(), AllocError>
        ensures { IfOk result (λ _. self.new ≡ hiding (enumerators_in_maybe (maybe_in e.now)) self.old) }
    {
        match e {
            None => Ok(()),
            Some(e) => self.hide_expression(e),
        }
    }
}
