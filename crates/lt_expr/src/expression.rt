// Expressions, C11 6.5.

ghost use Rattle.lt_tree.specs.Records.{expressions_in};
ghost use Rattle.lt_tree.specs.Comma.{followed_by};
ghost use Rattle.lt_expr.specs.Boxes.{boxed};
ghost use Rattle.lt_expr.specs.Fronts.{after};
ghost use Rattle.lt_expr.specs.Parsing.{rest_of, scope_of, Gives};
ghost use Rattle.lt_expr.specs.Reading as reading;

use crate::nodes;
use crate::parser::{Parser, deeper};
use lt_tree::{Expr, Stop, Terminal};

impl<'a> Parser<'a> {
    // expr = marked (',' marked)*
    #[cycle(parser)]
    #[tactic(auto, using(crate::proofs::Commas::comma_of_parts, crate::proofs::Joins::none_read), unfolding(crate::specs::Reading::expression))]
    pub(crate) fn boxed_expression(&mut self, depth: usize) -> Result<Box<Expr>, Stop>
        ensures { Gives boxed self.old self.new result (reading.expression depth (scope_of self.old) (rest_of self.old)) }
    {
        let depth = deeper(depth)?;
        let start = self.start();
        let first = self.marked(depth)?;
        if !self.sees(Terminal::Comma) {
            return Ok(first);
        }
        let first = self.reopened(first)?;
        self.advance();
        let parts = self.parts(depth, first)?;
        nodes::comma(self, start, parts)
    }

    // marked (',' marked)*, behind what was read of a comma expression
    #[cycle(parser)]
    #[tactic(auto, unfolding(crate::specs::Reading::expression))]
    pub fn parts(&mut self, mut depth: usize, mut parts: Vec<Expr>) -> Result<Vec<Expr>, Stop>
        ensures { Gives (λ xs. expressions_in xs.items) self.old self.new result (after (followed_by (expressions_in parts.items)) (reading.parts depth (scope_of self.old) (rest_of self.old))) }
    {
        'more: loop {
            depth = deeper(depth)?;
            let part = self.marked(depth)?;
            nodes::put(&mut parts, part)?;
            if !self.sees(Terminal::Comma) {
                return Ok(parts);
            }
            self.advance();
        }
    }

    // marked = (mark ',')* assign
    #[cycle(parser)]
    #[tactic(auto, unfolding(crate::specs::Reading::expression))]
    fn marked(&mut self, depth: usize) -> Result<Box<Expr>, Stop>
        ensures { Gives boxed self.old self.new result (reading.marked depth (scope_of self.old) (rest_of self.old)) }
    {
        let depth = deeper(depth)?;
        if !self.begins_mark() {
            return self.boxed_assignment(depth);
        }
        let start = self.start();
        let marks = self.marks(depth)?;
        let value = self.boxed_assignment(depth)?;
        nodes::marked(self, start, marks, value)
    }

    // assign = cond | unary ASSIGNOP assign
    #[cycle(parser)]
    #[tactic(auto, unfolding(crate::specs::Reading::expression))]
    pub(crate) fn boxed_assignment(&mut self, depth: usize) -> Result<Box<Expr>, Stop>
        ensures { Gives boxed self.old self.new result (reading.assignment depth (scope_of self.old) (rest_of self.old)) }
    {
        let depth = deeper(depth)?;
        let start = self.start();
        let cast = self.begins_cast();
        let first = self.operand(depth)?;
        match self.assignment_behind(cast) {
            None => self.choice(depth, start, first),
            Some(op) => {
                self.advance();
                let value = self.boxed_assignment(depth)?;
                nodes::assign(self, start, op, first, value)
            }
        }
    }

    // cond = or | or '?' expr ':' cond
    #[cycle(parser)]
    #[tactic(auto, unfolding(crate::specs::Reading::expression))]
    pub(crate) fn boxed_conditional(&mut self, depth: usize) -> Result<Box<Expr>, Stop>
        ensures { Gives boxed self.old self.new result (reading.conditional depth (scope_of self.old) (rest_of self.old)) }
    {
        let depth = deeper(depth)?;
        let start = self.start();
        let first = self.operand(depth)?;
        self.choice(depth, start, first)
    }

    // a conditional expression behind its first operand
    #[cycle(parser)]
    #[tactic(auto, unfolding(crate::specs::Reading::expression))]
    fn choice(&mut self, depth: usize, start: u32, first: Box<Expr>) -> Result<Box<Expr>, Stop>
        ensures { Gives boxed self.old self.new result (reading.choice depth (scope_of self.old) start (boxed first) (rest_of self.old)) }
    {
        let depth = deeper(depth)?;
        let test = self.climb(depth, start, 0, first)?;
        if !self.sees(Terminal::Question) {
            return Ok(test);
        }
        self.advance();
        let left = self.boxed_expression(depth)?;
        self.expect(Terminal::Colon)?;
        let right = self.boxed_conditional(depth)?;
        nodes::conditional(self, start, test, left, right)
    }

    // operators that bind at least so tightly, and their operands, behind the left operand
    #[cycle(parser)]
    #[tactic(auto, unfolding(crate::specs::Reading::expression))]
    fn climb(
        &mut self,
        mut depth: usize,
        start: u32,
        least: usize,
        mut left: Box<Expr>,
    ) -> Result<Box<Expr>, Stop>
        ensures { Gives boxed self.old self.new result (reading.climb depth (scope_of self.old) start least (boxed left) (rest_of self.old)) }
    {
        'more: loop {
            depth = deeper(depth)?;
            let Some((op, level)) = self.operator_at(least) else {
                return Ok(left);
            };
            self.advance();
            let begin = self.start();
            let first = self.operand(depth)?;
            let right = self.climb(depth, begin, level + 1, first)?;
            left = nodes::operates(self, start, op, left, right)?;
        }
    }

    // cast = unary | '(' typename ')' cast
    #[cycle(parser)]
    #[tactic(auto, unfolding(crate::specs::Reading::expression))]
    pub(crate) fn operand(&mut self, depth: usize) -> Result<Box<Expr>, Stop>
        ensures { Gives boxed self.old self.new result (reading.operand depth (scope_of self.old) (rest_of self.old)) }
    {
        let depth = deeper(depth)?;
        if !self.begins_cast() {
            return self.unary(depth);
        }
        let start = self.start();
        self.advance();
        let name = self.boxed_type_name(depth)?;
        self.expect(Terminal::CloseParen)?;
        let operand = self.operand(depth)?;
        nodes::cast(self, start, name, operand)
    }
}
