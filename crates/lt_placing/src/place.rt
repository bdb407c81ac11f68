// The new marks of one place, and what is made of an expression there.

ghost use Rattle.std.specs.Prelude.{◌≡◌, suc, IfOk, OnOk};
ghost use Rattle.std.specs.Fmt.{decimal};
ghost use Rattle.lt_tree.specs.Tree as t;
ghost use Rattle.lt_tree.specs.View.{expression_of, mark_of};
ghost use Rattle.lt_tree.specs.Records.{marks_in};
ghost use Rattle.lt_objectives.specs.Marked.{label, joined, preceded_by};
ghost use Rattle.lt_placing.specs.NewMarks.{new_mark_of, new_marks};
ghost use Rattle.lt_placing.specs.Walks.{decided_by, GivesMarks, TakesIn};

use crate::new_mark::{Form, NewMark};
use crate::walk::Walk;
use lt_model::Name;
use lt_tree::makes::expression as makes;
use lt_tree::makes::specifier::mark;
use lt_tree::{Expr, Mark};
use std::alloc::{AllocError, Global};

/// The new marks of one place, those of each form in their order.
#[derive(Drop)]
pub struct PlaceMarks {
    pub starts: Vec<Mark>,
    pub labels: Vec<Mark>,
    pub decisions: Vec<NewMark>,
}

/// The marks of the node before which the walk stands; it goes on behind the node.
pub fn marks_at_next(alloc: Global, walk: &mut Walk) -> Result<PlaceMarks, AllocError>
    ensures { GivesMarks walk.old walk.new result }
{
    let mut here = PlaceMarks {
        starts: Vec::new(alloc),
        labels: Vec::new(alloc),
        decisions: Vec::new(alloc),
    };
    'marks: while let Some(it) = walk.take_mark() {
        here.add(alloc, walk.next, it)?;
    }
    walk.next = walk.next.saturating_add(1);
    Ok(here)
}

impl PlaceMarks {
    /// One mark more, if it has this place.
    fn add(&mut self, alloc: Global, place: u128, it: NewMark) -> Result<(), AllocError>
        ensures { OnOk result (TakesIn self.old self.new place (new_mark_of it)) }
    {
        if u128::from(it.place) != place {
            return Ok(());
        }
        match it.form {
            Form::AtStart => {
                self.starts.push(made_label(alloc, it)?)?;
                Ok(())
            }
            Form::InFront => {
                self.labels.push(made_label(alloc, it)?)?;
                Ok(())
            }
            Form::Around => {
                self.decisions.push(it)?;
                Ok(())
            }
        }
    }

    /// An expression with these marks.
    pub fn with_expression(self, alloc: Global, e: Expr) -> Result<Expr, AllocError>
        ensures { IfOk result (λ all. expression_of all ≡ preceded_by (marks_in self.labels.items) (decided_by (new_marks self.decisions.items) (expression_of e))) }
    {
        let PlaceMarks {
            labels,
            decisions,
            ..
        } = self;
        let e = inside_decisions(alloc, decisions, e)?;
        if labels.is_empty() {
            return Ok(e);
        }
        makes::marked(alloc, labels, e)
    }

    /// An expression with these marks, the labels behind those in front of it already.
    pub fn behind_marks(self, alloc: Global, marks: Vec<Mark>, e: Expr) -> Result<Expr, AllocError>
        ensures { IfOk result (λ all. expression_of all ≡ t.Marked (joined (marks_in marks.items) (marks_in self.labels.items)) (decided_by (new_marks self.decisions.items) (expression_of e))) }
    {
        let PlaceMarks {
            labels,
            decisions,
            ..
        } = self;
        let e = inside_decisions(alloc, decisions, e)?;
        makes::marked(alloc, joined_marks(marks, labels)?, e)
    }
}

fn joined_marks(first: Vec<Mark>, others: Vec<Mark>) -> Result<Vec<Mark>, AllocError>
    ensures { IfOk result (λ all. marks_in all.items ≡ joined (marks_in first.items) (marks_in others.items)) }
{
    let mut all = first;
    let mut others = others;
    all.append(&mut others)?;
    Ok(all)
}

fn number_name(alloc: Global, number: u64) -> Result<Name, AllocError>
    ensures { IfOk result (λ name. name ≡ decimal number) }
{
    Name::new(alloc, number.to_string(alloc)?.as_str().as_bytes())
}

fn made_label(alloc: Global, it: NewMark) -> Result<Mark, AllocError>
    ensures { IfOk result (λ made. mark_of made ≡ label (new_mark_of it)) }
{
    let id = number_name(alloc, u64::from(it.id))?;
    Ok(mark(it.predicate, id, it.tag, Vec::new(alloc)))
}

/// An expression inside of these `pc_decide`s, the first of them outermost.
fn inside_decisions(alloc: Global, decisions: Vec<NewMark>, e: Expr) -> Result<Expr, AllocError>
    ensures { IfOk result (λ all. expression_of all ≡ decided_by (new_marks decisions.items) (expression_of e)) }
{
    let mut left = decisions;
    let mut all = e;
    'decisions: while let Some(it) = left.pop() {
        all = decided(alloc, it, all)?;
    }
    Ok(all)
}

fn decided(alloc: Global, it: NewMark, e: Expr) -> Result<Expr, AllocError>
    ensures { IfOk result (λ all. expression_of all ≡ t.Decide (expression_of e) (decimal it.id) (decimal (suc it.id)) it.tag) }
{
    let when_true = number_name(alloc, u64::from(it.id))?;
    let when_false = number_name(alloc, u64::from(it.id) + 1)?;
    makes::decide(alloc, e, when_true, when_false, it.tag)
}
