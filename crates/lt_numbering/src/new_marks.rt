//! New marks, one after the other.

ghost use Rattle.std.specs.Prelude.{◌≡◌, ◌≤◌, ◌<◌, ◌+◌, [], IfErr, IfOk, MatchOption, OnOk, map};
ghost use Rattle.lt_tree.specs.View.{expression_of};
ghost use Rattle.lt_objectives.specs.Criteria.{tag_of};
ghost use Rattle.lt_objectives.specs.Marked.{ids_of};
ghost use Rattle.lt_objectives.specs.Objectives.{all_at};
ghost use Rattle.lt_placing.specs.NewMarks.{form_of};
ghost use Rattle.lt_numbering.specs.Numbering.{Adds, IdsAreOut, Number, most_id};

use crate::stop::MarkStop;
use lt_model::Name;
use lt_objectives::Criterion;
use lt_placing::{Form, NewMark};
use lt_tree::Expr;
use std::alloc::{AllocError, Global};
use std::collections::VecDeque;

/// The greatest id of a mark.
const MOST_ID: u32 = 2_147_483_647;

/// New marks in the order of their objectives.
#[derive(Drop)]
pub struct NewMarks {
    pub marks: Vec<NewMark>,
    /// The id of the next one.
    pub next: u32,
}

/// How many ids a mark has.
fn ids_of(form: Form) -> u32
    ensures { result ≡ ids_of (form_of form) }
{
    match form {
        Form::AtStart | Form::InFront => 1,
        Form::Around => 2,
    }
}

fn tag(alloc: Global, criterion: Criterion) -> Result<Name, AllocError>
    ensures { IfOk result (λ name. name ≡ tag_of criterion) }
{
    Name::new(alloc, criterion.tag().as_bytes())
}

impl NewMarks {
    /// No marks yet; the first has this id.
    pub fn new(alloc: Global, first: u32) -> NewMarks
        requires { first ≤ most_id + 1 }
        ensures { Number result first [] }
    {
        NewMarks {
            marks: Vec::new(alloc),
            next: first,
        }
    }

    /// The next id, for a mark of this form, if it is there.
    fn take_id(&mut self, form: Form) -> Option<u32>
        requires { self.old.next ≤ most_id + 1 }
        ensures taken { MatchOption result (most_id + 1 < self.old.next + ids_of (form_of form)) (λ id. (id ≡ self.old.next) × (self.new.next ≡ self.old.next + ids_of (form_of form)) × (self.new.next ≤ most_id + 1)) }
        ensures stays { self.new.marks ≡ self.old.marks }
    {
        let id = self.next;
        let next = id + ids_of(form);
        if next > MOST_ID + 1 {
            return None;
        }
        self.next = next;
        Some(id)
    }

    /// A mark more for each of these predicates, at one place.
    pub fn add(
        &mut self,
        alloc: Global,
        place: u64,
        form: Form,
        criterion: Criterion,
        predicates: Vec<Expr>,
    ) -> Result<(), MarkStop>
        requires { self.old.next ≤ most_id + 1 }
        ensures added { OnOk result (Adds self.old self.new (all_at place (form_of form) criterion (map expression_of predicates.items))) }
        ensures within { OnOk result (self.new.next ≤ most_id + 1) }
        ensures ids { IfErr result (IdsAreOut self.old (all_at place (form_of form) criterion (map expression_of predicates.items))) }
    {
        let mut left = VecDeque::from_vec(predicates);
        'left: while !left.is_empty() {
            let Some(id) = self.take_id(form) else {
                return Err(MarkStop::Ids);
            };
            let tag = tag(alloc, criterion)?;
            if let Some(predicate) = left.pop_front() {
                self.marks.push(NewMark {
                    place,
                    form,
                    predicate,
                    id,
                    tag,
                })?;
            }
        }
        Ok(())
    }
}
