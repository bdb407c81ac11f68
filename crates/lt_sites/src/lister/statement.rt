ghost use Rattle.std.specs.Prelude.{◌≡◌, ◌++◌, IfOk, length, map, option_map};
ghost use Rattle.std.specs.List.{flat_map};
ghost use Rattle.lt_tree.specs.View.{expression_of};
ghost use Rattle.lt_tree.specs.UnitView.{start_of, label_of, statement_of, items_in, cases_in};
ghost use Rattle.lt_tree.specs.Nodes.{a_label, a_statement, in_optional, in_start, in_label, in_statement, in_items, in_cases};
ghost use Rattle.lt_sites.specs.Sites.{in_node, head_of};
ghost use Rattle.lt_sites.specs.Listed.{Lists, inside, item_of};

use super::sites::Lister;
use crate::site::NodeRef;
use lt_tree::{Expr, ForStart, Item, Label, Stmt, SwitchCase};
use std::alloc::AllocError;

impl<'u> Lister<'u> {
    // An expression that may be left out.
    #[tactic(auto, using(crate::proofs::Grown::listed_none))]
    fn optional(&mut self, e: &'u Option<Expr>) -> Result<(), AllocError>
        ensures { Lists result self.old self.new (in_optional (option_map expression_of e.now)) }
    {
        match e {
            None => Ok(()),
            Some(e) => self.expression(e),
        }
    }

    // What stands before the first `;` of a `for`; gives how many nodes that are.
    fn head(&mut self, start: &'u ForStart) -> Result<usize, AllocError>
        ensures nodes { Lists result self.old self.new (in_start (start_of start.now)) }
        ensures count { IfOk result (λ count. count ≡ length (in_start (start_of start.now))) }
    {
        let behind = self.len();
        self.for_start(start)?;
        Ok(self.len() - behind)
    }

    #[tactic(auto, using(crate::proofs::Grown::listed_none))]
    fn for_start(&mut self, start: &'u ForStart) -> Result<(), AllocError>
        ensures { Lists result self.old self.new (in_start (start_of start.now)) }
    {
        match start {
            ForStart::Nothing => Ok(()),
            ForStart::Expression(e) => self.expression(e),
            ForStart::Declaration(declaration) => self.declaration(declaration),
        }
    }

    // A label.
    fn label(&mut self, label: &'u Label) -> Result<(), AllocError>
        ensures { Lists result self.old self.new (in_label (label_of label.now)) }
    {
        let start = self.len();
        match label {
            Label::Case(value) => {
                self.expression(value)?;
                self.leave(NodeRef::Label(label), start, 0)
            }
            Label::Default => self.leave(NodeRef::Label(label), start, 0),
        }
    }

    // Labels in a row.
    fn labels(&mut self, list: &'u [Label]) -> Result<(), AllocError>
        ensures { Lists result self.old self.new (flat_map in_label (map label_of list.now)) }
    {
        'labels: for at in (0..list.len()).rev() {
            self.label(&list[at])?;
        }
        Ok(())
    }

    // A statement.
    #[cycle(statements)]
    fn statement(&mut self, x: &'u Stmt) -> Result<(), AllocError>
        ensures { Lists result self.old self.new (in_statement (statement_of x.now)) }
    {
        let start = self.len();
        let head = self.statement_parts(x)?;
        self.leave(NodeRef::Statement(x), start, head)
    }

    // What is inside of a statement; gives how many nodes stand before the first `;` of a `for`.
    #[cycle(statements)]
    #[tactic(auto, using(crate::proofs::Grown::both, crate::proofs::Grown::listed_none))]
    fn statement_parts(&mut self, x: &'u Stmt) -> Result<usize, AllocError>
        ensures nodes { Lists result self.old self.new (inside (a_statement (statement_of x.now))) }
        ensures head { IfOk result (λ head. head ≡ head_of (a_statement (statement_of x.now))) }
    {
        match x {
            Stmt::Null | Stmt::Break | Stmt::Continue => {}
            Stmt::Compound(list) => self.items(list.as_slice())?,
            Stmt::Expression(e) => self.expression(e)?,
            Stmt::If(test, body, other) => match other {
                None => {
                    self.statement(body)?;
                    self.expression(test)?
                }
                Some(other) => {
                    self.statement(other)?;
                    self.statement(body)?;
                    self.expression(test)?
                }
            },
            Stmt::While(test, body) => {
                self.statement(body)?;
                self.expression(test)?
            }
            Stmt::Do(body, test) => {
                self.expression(test)?;
                self.statement(body)?
            }
            Stmt::For(start, test, step, body) => {
                self.statement(body)?;
                self.optional(step)?;
                self.optional(test)?;
                return self.head(start);
            }
            Stmt::Switch(operand, list) => {
                self.cases(list.as_slice())?;
                self.expression(operand)?
            }
            Stmt::Return(value) => self.optional(value)?,
        }
        Ok(0)
    }

    // An item of a block.
    #[cycle(statements)]
    fn item(&mut self, item: &'u Item) -> Result<(), AllocError>
        ensures { Lists result self.old self.new (in_node (item_of item.now)) }
    {
        let start = self.len();
        match item {
            Item::Declaration(declaration) => {
                self.declaration(declaration)?;
                self.leave(NodeRef::DeclaredItem(declaration), start, 0)
            }
            Item::Statement(x) => {
                self.statement(x)?;
                self.leave(NodeRef::StatedItem(x), start, 0)
            }
            Item::Mark(mark) => {
                self.mark(mark)?;
                self.leave(NodeRef::MarkedItem(mark), start, 0)
            }
        }
    }

    /// Lists items in a row.
    #[cycle(statements)]
    pub fn items(&mut self, list: &'u [Item]) -> Result<(), AllocError>
        ensures { Lists result self.old self.new (in_items (items_in list.now)) }
    {
        'items: for at in (0..list.len()).rev() {
            self.item(&list[at])?;
        }
        Ok(())
    }

    // Statements in a row with their labels.
    #[cycle(statements)]
    fn cases(&mut self, list: &'u [SwitchCase]) -> Result<(), AllocError>
        ensures { Lists result self.old self.new (in_cases (cases_in list.now)) }
    {
        'cases: for at in (0..list.len()).rev() {
            self.case(&list[at])?;
        }
        Ok(())
    }

    // A statement with its labels.
    #[cycle(statements)]
    #[tactic(auto, using(crate::proofs::Grown::both))]
    fn case(&mut self, case: &'u SwitchCase) -> Result<(), AllocError>
        ensures { Lists result self.old self.new (flat_map in_label (map label_of case.now.labels.items) ++ in_statement (statement_of case.now.statement)) }
    {
        self.statement(&case.statement)?;
        self.labels(case.labels.as_slice())
    }
}
