ghost use Rattle.lt_tree.specs.View.{expression_of};
ghost use Rattle.lt_tree.specs.Records.{expressions_in, maybe_in};
ghost use Rattle.lt_tree.specs.Nodes.{an_expression, in_expression, in_expressions, in_maybe};
ghost use Rattle.lt_sites.specs.Listed.{Lists, inside};

use super::sites::Lister;
use crate::site::NodeRef;
use lt_tree::Expr;
use std::alloc::AllocError;

impl<'u> Lister<'u> {
    /// Lists an expression.
    #[cycle(listing)]
    pub fn expression(&mut self, e: &'u Expr) -> Result<(), AllocError>
        ensures { Lists result self.old self.new (in_expression (expression_of e.now)) }
    {
        let start = self.len();
        self.operands(e)?;
        self.leave(NodeRef::Expression(e), start, 0)
    }

    // What is inside of an expression.
    #[cycle(listing)]
    #[tactic(auto, using(crate::proofs::Grown::both, crate::proofs::Grown::listed_none))]
    fn operands(&mut self, e: &'u Expr) -> Result<(), AllocError>
        ensures { Lists result self.old self.new (inside (an_expression (expression_of e.now))) }
    {
        match e {
            Expr::Name(_) | Expr::Constant(_) | Expr::Text(_) => Ok(()),
            Expr::Call(callee, arguments) => {
                self.expressions(arguments.as_slice())?;
                self.expression(callee)
            }
            Expr::Index(whole, index) => {
                self.expression(index)?;
                self.expression(whole)
            }
            Expr::Binary(_, left, right) => {
                self.expression(right)?;
                self.expression(left)
            }
            Expr::Logical(_, left, right) => {
                self.expression(right)?;
                self.expression(left)
            }
            Expr::Assign(_, target, value) => {
                self.expression(value)?;
                self.expression(target)
            }
            Expr::Conditional(test, left, right) => {
                self.expression(right)?;
                self.expression(left)?;
                self.expression(test)
            }
            Expr::Member(whole, _) => self.expression(whole),
            Expr::Arrow(pointer, _) => self.expression(pointer),
            Expr::PostInc(target) => self.expression(target),
            Expr::PostDec(target) => self.expression(target),
            Expr::PreInc(target) => self.expression(target),
            Expr::PreDec(target) => self.expression(target),
            Expr::Unary(_, operand) => self.expression(operand),
            Expr::SizeofExpr(operand) => self.expression(operand),
            Expr::Decide(operand, _, _, _) => self.expression(operand),
            Expr::After(operand, _, _) => self.expression(operand),
            Expr::SizeofType(name) => self.type_name(name),
            Expr::Cast(name, operand) => {
                self.expression(operand)?;
                self.type_name(name)
            }
            Expr::Comma(parts) => self.expressions(parts.as_slice()),
            Expr::Marked(marks, value) => {
                self.expression(value)?;
                self.marks(marks.as_slice())
            }
        }
    }

    // Expressions in a row.
    #[cycle(listing)]
    fn expressions(&mut self, list: &'u [Expr]) -> Result<(), AllocError>
        ensures { Lists result self.old self.new (in_expressions (expressions_in list.now)) }
    {
        'expressions: for at in (0..list.len()).rev() {
            self.expression(&list[at])?;
        }
        Ok(())
    }

    // An expression that may be left out.
    #[cycle(listing)]
    #[tactic(auto, using(crate::proofs::Grown::listed_none))]
    pub(super) fn maybe(&mut self, e: &'u Option<Box<Expr>>) -> Result<(), AllocError>
        ensures { Lists result self.old self.new (in_maybe (maybe_in e.now)) }
    {
        match e {
            None => Ok(()),
            Some(e) => self.expression(e),
        }
    }
}
