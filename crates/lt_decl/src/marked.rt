// An expression of which the first mark and its comma were read.

ghost use Rattle.lt_tree.specs.Tree as c;
ghost use Rattle.lt_tree.specs.View.{expression_of, mark_of};
ghost use Rattle.lt_tree.specs.Records.{marks_in};
ghost use Rattle.lt_expr.specs.Fronts.{after};
ghost use Rattle.lt_expr.specs.Parsing.{rest_of, scope_of, Gives};
ghost use Rattle.lt_expr.specs.Reading.{marks};
ghost use Rattle.lt_decl.specs.Items.{marks_by};
ghost use Rattle.lt_decl.specs.Reading as reading;

use lt_expr::{Parser, deeper};
use lt_tree::makes::expression as makes;
use lt_tree::{Expr, Mark, Stop, Terminal};

// (mark ',')*, behind the first mark
fn all_marks(parser: &mut Parser, depth: usize, first: Mark) -> Result<Vec<Mark>, Stop>
    ensures { Gives (λ xs. marks_in xs.items) parser.old parser.new result (after (c.a_mark (mark_of first)) (marks_by (marks depth (scope_of parser.old)) (rest_of parser.old))) }
{
    let mut marks = Vec::new(parser.alloc());
    marks.push(first)?;
    if parser.begins_mark() {
        let mut more = parser.marks(depth)?;
        marks.append(&mut more)?;
    }
    Ok(marks)
}

// (mark ',')* assign (',' marked)*
#[tactic(auto, unfolding(crate::specs::Reading::expression_on))]
pub(crate) fn expression_on(
    parser: &mut Parser,
    depth: usize,
    start: u32,
    first: Mark,
) -> Result<Expr, Stop>
    ensures { Gives expression_of parser.old parser.new result (reading.expression_on depth (scope_of parser.old) start (mark_of first) (rest_of parser.old)) }
{
    let depth = deeper(depth)?;
    let marks = all_marks(parser, depth, first)?;
    let value = parser.assignment(depth)?;
    parser.end(start)?;
    let value = makes::marked(parser.alloc(), marks, value)?;
    if !parser.sees(Terminal::Comma) {
        return Ok(value);
    }
    parser.advance();
    let mut parts = Vec::new(parser.alloc());
    parts.push(value)?;
    let parts = parser.parts(depth, parts)?;
    parser.end(start)?;
    Ok(makes::comma(parts))
}
