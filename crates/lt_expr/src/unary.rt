// Expressions of one operand, and those without operators, C11 6.5.1 to 6.5.3.

ghost use Rattle.lt_tree.specs.Records.{expressions_in};
ghost use Rattle.lt_expr.specs.Boxes.{boxed};
ghost use Rattle.lt_expr.specs.Parsing.{rest_of, scope_of, Gives};
ghost use Rattle.lt_expr.specs.Reading as reading;

use crate::nodes;
use crate::operators::prefix_of;
use crate::parser::{Parser, deeper};
use lt_tree::{Expr, Stop, Terminal};

impl<'a> Parser<'a> {
    // unary = postfix | ('++' | '--') unary | PREFIX cast | 'sizeof' unary | 'sizeof' '(' typename ')'
    #[cycle(parser)]
    #[tactic(auto, unfolding(crate::specs::Reading::expression))]
    pub(crate) fn unary(&mut self, depth: usize) -> Result<Box<Expr>, Stop>
        ensures { Gives boxed self.old self.new result (reading.unary depth (scope_of self.old) (rest_of self.old)) }
    {
        let depth = deeper(depth)?;
        let start = self.start();
        if self.sees(Terminal::Increment) {
            self.advance();
            let target = self.unary(depth)?;
            nodes::pre_increment(self, start, target)
        } else if self.sees(Terminal::Decrement) {
            self.advance();
            let target = self.unary(depth)?;
            nodes::pre_decrement(self, start, target)
        } else if self.sees(Terminal::Sizeof) {
            self.advance();
            self.size(depth, start)
        } else {
            match prefix_of(self.terminal()) {
                Some(op) => {
                    self.advance();
                    let operand = self.operand(depth)?;
                    nodes::unary(self, start, op, operand)
                }
                None => {
                    let first = self.primary(depth)?;
                    self.postfix(depth, start, first)
                }
            }
        }
    }

    // behind `sizeof`
    #[cycle(parser)]
    #[tactic(auto, unfolding(crate::specs::Reading::expression))]
    fn size(&mut self, depth: usize, start: u32) -> Result<Box<Expr>, Stop>
        ensures { Gives boxed self.old self.new result (reading.size depth (scope_of self.old) start (rest_of self.old)) }
    {
        let depth = deeper(depth)?;
        if self.begins_cast() {
            self.advance();
            let name = self.boxed_type_name(depth)?;
            nodes::size_of_type(self, start, name)
        } else {
            let operand = self.unary(depth)?;
            nodes::size_of_expression(self, start, operand)
        }
    }

    // ('[' expr ']' | '(' assign,* ')' | '.' NAME | '->' NAME | '++' | '--')*
    #[cycle(parser)]
    #[tactic(auto, unfolding(crate::specs::Reading::expression))]
    fn postfix(
        &mut self,
        mut depth: usize,
        start: u32,
        mut left: Box<Expr>,
    ) -> Result<Box<Expr>, Stop>
        ensures { Gives boxed self.old self.new result (reading.postfix depth (scope_of self.old) start (boxed left) (rest_of self.old)) }
    {
        'more: loop {
            depth = deeper(depth)?;
            if !self.begins_postfix() {
                return Ok(left);
            }
            left = self.one_postfix(depth, left)?;
            self.end(start)?;
        }
    }

    #[cycle(parser)]
    #[tactic(auto, unfolding(crate::specs::Reading::expression))]
    fn one_postfix(&mut self, depth: usize, left: Box<Expr>) -> Result<Box<Expr>, Stop>
        ensures { Gives boxed self.old self.new result (reading.one_postfix depth (scope_of self.old) (boxed left) (rest_of self.old)) }
    {
        let depth = deeper(depth)?;
        if self.sees(Terminal::OpenIndex) {
            self.advance();
            let index = self.boxed_expression(depth)?;
            nodes::index(self, left, index)
        } else if self.sees(Terminal::OpenParen) {
            self.advance();
            let arguments = self.arguments(depth)?;
            nodes::call(self, left, arguments)
        } else if self.sees(Terminal::Dot) {
            nodes::member(self, left)
        } else if self.sees(Terminal::Arrow) {
            nodes::arrow(self, left)
        } else if self.sees(Terminal::Increment) {
            nodes::post_increment(self, left)
        } else {
            nodes::post_decrement(self, left)
        }
    }

    // assign,*, before ')'
    #[cycle(parser)]
    #[tactic(auto, using(crate::proofs::Joins::no_expressions), unfolding(crate::specs::Reading::expression))]
    fn arguments(&mut self, mut depth: usize) -> Result<Vec<Expr>, Stop>
        ensures { Gives (λ xs. expressions_in xs.items) self.old self.new result (reading.arguments_by (reading.arguments depth (scope_of self.old)) (rest_of self.old)) }
    {
        let mut arguments = Vec::new(self.alloc);
        if self.sees(Terminal::CloseParen) {
            return Ok(arguments);
        }
        'more: loop {
            depth = deeper(depth)?;
            let argument = self.boxed_assignment(depth)?;
            nodes::put(&mut arguments, argument)?;
            if !self.sees(Terminal::Comma) {
                return Ok(arguments);
            }
            self.advance();
        }
    }

    // primary = NAME | CONSTANT | STRING+ | '(' expr ')' | 'pc_decide' .. | 'pc_after' ..
    #[cycle(parser)]
    #[tactic(auto, unfolding(crate::specs::Reading::expression))]
    fn primary(&mut self, depth: usize) -> Result<Box<Expr>, Stop>
        ensures { Gives boxed self.old self.new result (reading.primary depth (scope_of self.old) (rest_of self.old)) }
    {
        let depth = deeper(depth)?;
        if self.sees(Terminal::OpenParen) {
            self.advance();
            let inner = self.boxed_expression(depth)?;
            return nodes::closed(self, inner);
        }
        let start = self.start();
        if self.sees(Terminal::Decide) {
            self.advance();
            self.decide(depth, start)
        } else if self.sees(Terminal::After) {
            self.advance();
            self.after(depth, start)
        } else {
            nodes::leaf(self)
        }
    }
}
