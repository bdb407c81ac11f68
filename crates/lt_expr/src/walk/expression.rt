ghost use Rattle.std.specs.Prelude.{◌≡◌, IfOk};
ghost use Rattle.lt_tree.specs.View.{expression_of};
ghost use Rattle.lt_tree.specs.Records.{expressions_in, maybe_in};
ghost use Rattle.lt_expr.specs.Walk as walk;
ghost use Rattle.lt_expr.specs.Inside.{inside};

use super::walker::Walker;
use lt_tree::Expr;
use std::alloc::AllocError;

impl Walker {
    /// Walks an expression.
    #[cycle(walk)]
    #[tactic(auto, using(crate::proofs::WalkRows::node_left))]
    pub fn expression(&mut self, e: &Expr) -> Result<(), AllocError>
        ensures { IfOk result (λ _. self.new ≡ walk.walk (expression_of e.now) self.old) }
    {
        let start = self.enter();
        self.operands(e)?;
        self.leave(start)
    }

    // What is inside of an expression.
    #[cycle(walk)]
    fn operands(&mut self, e: &Expr) -> Result<(), AllocError>
        ensures { IfOk result (λ _. self.new ≡ inside (walk.walk (expression_of e.now)) self.old) }
    {
        match e {
            Expr::Name(_) | Expr::Constant(_) | Expr::Text(_) => Ok(()),
            Expr::Call(callee, arguments) => {
                self.expressions(arguments.as_slice())?;
                self.expression(callee)
            }
            Expr::Index(whole, index) => {
                self.expression(index)?;
                self.expression(whole)
            }
            Expr::Binary(_, left, right) => {
                self.expression(right)?;
                self.expression(left)
            }
            Expr::Logical(_, left, right) => {
                self.expression(right)?;
                self.expression(left)
            }
            Expr::Assign(_, target, value) => {
                self.expression(value)?;
                self.expression(target)
            }
            Expr::Conditional(test, left, right) => {
                self.expression(right)?;
                self.expression(left)?;
                self.expression(test)
            }
            Expr::Member(whole, _) => self.expression(whole),
            Expr::Arrow(pointer, _) => self.expression(pointer),
            Expr::PostInc(target) => self.expression(target),
            Expr::PostDec(target) => self.expression(target),
            Expr::PreInc(target) => self.expression(target),
            Expr::PreDec(target) => self.expression(target),
            Expr::Unary(_, operand) => self.expression(operand),
            Expr::SizeofExpr(operand) => self.expression(operand),
            Expr::Decide(operand, _, _, _) => self.expression(operand),
            Expr::After(operand, _, _) => self.expression(operand),
            Expr::SizeofType(name) => self.type_name(name),
            Expr::Cast(name, operand) => {
                self.expression(operand)?;
                self.type_name(name)
            }
            Expr::Comma(parts) => self.expressions(parts.as_slice()),
            Expr::Marked(marks, value) => {
                self.expression(value)?;
                self.marks(marks.as_slice())
            }
        }
    }

    // Expressions in a row.
    #[cycle(walk)]
    fn expressions(&mut self, list: &[Expr]) -> Result<(), AllocError>
        ensures { IfOk result (λ _. self.new ≡ walk.walk_all (expressions_in list.now) self.old) }
    {
        'expressions: for at in (0..list.len()).rev() {
            self.expression(&list[at])?;
        }
        Ok(())
    }

    // An expression that may be left out.
    #[cycle(walk)]
    pub(super) fn maybe(&mut self, e: &Option<Box<Expr>>) -> Result<(), AllocError>
        ensures { IfOk result (λ _. self.new ≡ walk.walk_maybe (maybe_in e.now) self.old) }
    {
        match e {
            None => Ok(()),
            Some(e) => self.expression(e),
        }
    }
}
