// Marks: labels, and the expressions that mark a decision or what follows.

ghost use Rattle.lt_tree.specs.View.{mark_of};
ghost use Rattle.lt_tree.specs.Records.{marks_in, bindings_in};
ghost use Rattle.lt_expr.specs.Boxes.{boxed};
ghost use Rattle.lt_expr.specs.Parsing.{rest_of, scope_of, Gives};
ghost use Rattle.lt_expr.specs.Labels.{labelled_of};
ghost use Rattle.lt_expr.specs.Reading as reading;

use crate::label::Labelled;
use crate::parser::{Parser, deeper};
use crate::{label, nodes};
use lt_tree::{Binding, Expr, Mark, Stop, Terminal};

impl<'a> Parser<'a> {
    // '(' assign ',' CONSTANT ',' CONSTANT ',' STRING ')'
    #[cycle(parser)]
    #[tactic(auto, unfolding(crate::specs::Reading::expression))]
    pub(crate) fn decide(&mut self, depth: usize, start: u32) -> Result<Box<Expr>, Stop>
        ensures { Gives boxed self.old self.new result (reading.decide depth (scope_of self.old) start (rest_of self.old)) }
    {
        let depth = deeper(depth)?;
        self.expect(Terminal::OpenParen)?;
        let operand = self.boxed_assignment(depth)?;
        nodes::decide(self, start, operand)
    }

    // '(' assign ',' CONSTANT ',' STRING ')'
    #[cycle(parser)]
    #[tactic(auto, unfolding(crate::specs::Reading::expression))]
    pub(crate) fn after(&mut self, depth: usize, start: u32) -> Result<Box<Expr>, Stop>
        ensures { Gives boxed self.old self.new result (reading.after depth (scope_of self.old) start (rest_of self.old)) }
    {
        let depth = deeper(depth)?;
        let labelled = self.labelled(depth)?;
        nodes::after(self, start, labelled)
    }

    // '(' assign ',' CONSTANT ',' STRING
    #[cycle(parser)]
    #[tactic(auto, unfolding(crate::specs::Reading::expression))]
    fn labelled(&mut self, depth: usize) -> Result<Labelled, Stop>
        ensures { Gives labelled_of self.old self.new result (reading.labelled depth (scope_of self.old) (rest_of self.old)) }
    {
        let depth = deeper(depth)?;
        self.expect(Terminal::OpenParen)?;
        let predicate = self.boxed_assignment(depth)?;
        label::named(self, predicate)
    }

    // mark = 'pc_label' '(' assign ',' CONSTANT ',' STRING ')'
    //      | 'pc_label_bind' '(' assign ',' CONSTANT ',' STRING (',' NAME ',' assign)+ ')'
    #[cycle(parser)]
    #[tactic(auto, unfolding(crate::specs::Reading::expression))]
    pub fn mark(&mut self, depth: usize) -> Result<Mark, Stop>
        ensures { Gives mark_of self.old self.new result (reading.mark depth (scope_of self.old) (rest_of self.old)) }
    {
        let depth = deeper(depth)?;
        let start = self.start();
        if self.sees(Terminal::Label) {
            self.advance();
            let labelled = self.labelled(depth)?;
            let none = Vec::new(self.alloc);
            return label::mark(self, start, labelled, none);
        }
        self.expect(Terminal::LabelBind)?;
        let labelled = self.labelled(depth)?;
        let bound = self.bindings(depth)?;
        label::mark(self, start, labelled, bound)
    }

    // (',' NAME ',' assign)+
    #[cycle(parser)]
    #[tactic(auto, using(crate::proofs::Joins::no_bindings), unfolding(crate::specs::Reading::expression))]
    fn bindings(&mut self, mut depth: usize) -> Result<Vec<Binding>, Stop>
        ensures { Gives (λ xs. bindings_in xs.items) self.old self.new result (reading.bindings depth (scope_of self.old) (rest_of self.old)) }
    {
        let mut bound = Vec::new(self.alloc);
        'more: loop {
            depth = deeper(depth)?;
            let name = self.bound_name()?;
            let value = self.boxed_assignment(depth)?;
            label::bind(&mut bound, name, value)?;
            if !self.sees(Terminal::Comma) {
                return Ok(bound);
            }
        }
    }

    // (mark ',')+
    #[cycle(parser)]
    #[tactic(auto, using(crate::proofs::Joins::no_marks), unfolding(crate::specs::Reading::expression))]
    pub fn marks(&mut self, mut depth: usize) -> Result<Vec<Mark>, Stop>
        ensures { Gives (λ xs. marks_in xs.items) self.old self.new result (reading.marks depth (scope_of self.old) (rest_of self.old)) }
    {
        let mut marks = Vec::new(self.alloc);
        'more: loop {
            depth = deeper(depth)?;
            let mark = self.mark(depth)?;
            marks.push(mark)?;
            self.expect(Terminal::Comma)?;
            if !self.begins_mark() {
                return Ok(marks);
            }
        }
    }
}
