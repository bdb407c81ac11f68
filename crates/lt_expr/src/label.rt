// What stands behind the predicate of a mark.

ghost use Rattle.std.specs.Prelude.{◌≡◌, ◌∷◌, ◌++◌, [], IfOk};
ghost use Rattle.lt_tree.specs.View.{mark_of};
ghost use Rattle.lt_tree.specs.Records.{bindings_in};
ghost use Rattle.lt_expr.specs.Boxes.{boxed};
ghost use Rattle.lt_expr.specs.Ends as ends;
ghost use Rattle.lt_expr.specs.Labels.{labelled_of};
ghost use Rattle.lt_expr.specs.Parsing.{rest_of, Gives};

use crate::parser::Parser;
use crate::pieces;
use lt_model::Name;
use lt_tree::{Binding, Expr, Mark, Stop, Terminal};
use std::alloc::AllocError;

/// The predicate, the id and the tag of a mark.
#[derive(Drop)]
pub(crate) struct Labelled {
    pub(crate) predicate: Box<Expr>,
    pub(crate) id: Name,
    pub(crate) tag: Name,
}

// ',' CONSTANT ',' STRING
pub(crate) fn named(parser: &mut Parser, predicate: Box<Expr>) -> Result<Labelled, Stop>
    ensures { Gives labelled_of parser.old parser.new result (ends.label_end (boxed predicate) (rest_of parser.old)) }
{
    let id = parser.id()?;
    let tag = parser.tag()?;
    Ok(Labelled { predicate, id, tag })
}

// ')'
pub(crate) fn mark(
    parser: &mut Parser,
    start: u32,
    label: Labelled,
    bound: Vec<Binding>,
) -> Result<Mark, Stop>
    ensures { Gives mark_of parser.old parser.new result (ends.mark_end start (labelled_of label) (bindings_in bound.items) (rest_of parser.old)) }
{
    parser.expect(Terminal::CloseParen)?;
    parser.end(start)?;
    Ok(pieces::mark(Box::into_inner(label.predicate), label.id, label.tag, bound))
}

// One more binding at the end of a list.
pub(crate) fn bind(list: &mut Vec<Binding>, name: Name, value: Box<Expr>) -> Result<(), AllocError>
    ensures { IfOk result (λ _. list.new.items ≡ list.old.items ++ record { name = name; value = value.value } ∷ []) }
{
    list.push(Binding {
        name,
        value: Box::into_inner(value),
    })?;
    Ok(())
}

impl<'a> Parser<'a> {
    // ',' NAME ','
    pub(crate) fn bound_name(&mut self) -> Result<Name, Stop>
        ensures { Gives (λ w. w) self.old self.new result (ends.bound_name (rest_of self.old)) }
    {
        self.expect(Terminal::Comma)?;
        let name = self.name()?;
        self.expect(Terminal::Comma)?;
        Ok(name)
    }
}
