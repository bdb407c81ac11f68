// Code of marks, and of what stands behind them.

ghost use Rattle.std.specs.Prelude.{◌≡◌, List};
ghost use Rattle.lt_tree.specs.Typing.Types.{Void};
ghost use Rattle.lt_tree.specs.Typing.ValueView.{value_of, mark_of, marks_in};
ghost use Rattle.lt_tree.specs.Typing.TypedTree as e;
ghost use Rattle.lt_emit.specs.Emission.{GivesWithin, costs, HasPoint};
ghost use Rattle.lt_emit.specs.Known.{IsMarked};
ghost use Rattle.lt_emit.specs.Entering.{EntersIf, IsLabel};
ghost use Rattle.lt_emit.specs.Stands.{GivesPlain, GivesValue, GivesTest, MarkStands};
ghost use Rattle.lt_emit.specs.Marking.{marks_cost, AreLookable, LabelStands, FixedMarkStands, BothMarksStand, MarksStand};

use crate::builder::Builder;
use crate::expression::{test, value};
use crate::fate::Fate;
use crate::pure::{pure, pures, truth};
use lt_ir::{Node, Pure};
use lt_model::Sequence;
use lt_tree::typed::{Mark, Value};
use std::alloc::AllocError;

impl<'t> Builder<'t> {
    /// A mark of the label with this id.
    pub fn label_mark(
        &mut self,
        id: u32,
        predicate: Pure,
        bound: Vec<Pure>,
        to: u32,
    ) -> Result<u32, AllocError>
        requires point { HasPoint self.old to }
        requires there { AreLookable self.old predicate bound.items }
        ensures code { GivesWithin self.old self.new result (costs 1 0) (LabelStands id predicate bound.items to) }
        ensures enters { EntersIf (IsLabel id) self.old self.new result }
    {
        match self.site.tables.label(id) {
            None => Ok(to),
            Some(label) => self.emit(Node::Mark {
                label,
                predicate,
                bound: Sequence::new(bound),
                next: to,
            }),
        }
    }

    /// A mark that is true, or isn't.
    pub fn fixed_mark(&mut self, id: u32, holds: bool, to: u32) -> Result<u32, AllocError>
        requires { HasPoint self.old to }
        ensures { GivesWithin self.old self.new result (costs 1 0) (FixedMarkStands id holds to) }
    {
        self.label_mark(id, truth(holds), Vec::new(self.alloc), to)
    }

    // The marks of `pc_decide`: the one for its truth, and the other.
    fn both_marks(
        &mut self,
        when_true: u32,
        when_false: u32,
        holds: bool,
        to: u32,
    ) -> Result<u32, AllocError>
        requires { HasPoint self.old to }
        ensures { GivesWithin self.old self.new result (costs 2 0) (BothMarksStand when_true when_false holds to) }
    {
        let second = self.fixed_mark(when_false, !holds, to)?;
        self.fixed_mark(when_true, holds, second)
    }
}

/// The code of a mark.
pub fn mark(b: &mut Builder, m: &Mark, to: u32) -> Result<u32, AllocError>
    requires { HasPoint b.old to }
    ensures code { GivesWithin b.old b.new result (costs 1 0) (MarkStands m.now to) }
    ensures enters { EntersIf (λ here. IsMarked here (mark_of here.types m.now)) b.old b.new result }
{
    let predicate = pure(b.alloc, b.site, &m.predicate)?;
    let bound = pures(b.alloc, b.site, m.bound.as_slice())?;
    b.label_mark(m.id, predicate, bound, to)
}

// Marks, one behind the other.
fn marks(b: &mut Builder, all: &[Mark], to: u32) -> Result<u32, AllocError>
    requires { HasPoint b.old to }
    ensures { GivesWithin b.old b.new result (marks_cost all.now) (MarksStand all.now to) }
{
    let mut from = to;
    'marks: for at in (0..all.len()).rev() {
        from = mark(b, &all[at], from)?;
    }
    Ok(from)
}

/// An expression behind marks.
#[cycle(expression)]
pub fn marked(
    b: &mut Builder,
    fate: Fate,
    all: &[Mark],
    v: &Value,
    register: u32,
    to: u32,
) -> Result<u32, AllocError>
    requires { HasPoint b.old to }
    ensures { GivesValue b.old b.new result fate (λ types. e.Marked Void (marks_in types all.now) (value_of types v.now)) register to }
{
    let behind = value(b, fate.of_last(), v, register, to)?;
    marks(b, all, behind)
}

/// The same as a test.
#[cycle(expression)]
pub fn marked_test(
    b: &mut Builder,
    all: &[Mark],
    v: &Value,
    register: u32,
    on: u32,
    off: u32,
) -> Result<u32, AllocError>
    requires on { HasPoint b.old on }
    requires off { HasPoint b.old off }
    ensures { GivesTest b.old b.new result (λ types. e.Marked Void (marks_in types all.now) (value_of types v.now)) register on off }
{
    let behind = test(b, v, register, on, off)?;
    marks(b, all, behind)
}

/// `pc_decide`, whose value is whether its operand holds.
#[cycle(expression)]
pub fn decided(
    b: &mut Builder,
    operand: &Value,
    when_true: u32,
    when_false: u32,
    register: u32,
    to: u32,
) -> Result<u32, AllocError>
    requires { HasPoint b.old to }
    ensures { GivesPlain b.old b.new result (λ types. e.Decide Void (value_of types operand.now) when_true when_false) register to }
{
    let on = b.truth(register, true, to)?;
    let off = b.truth(register, false, to)?;
    decided_test(b, operand, when_true, when_false, register, on, off)
}

/// The same as a test.
#[cycle(expression)]
pub fn decided_test(
    b: &mut Builder,
    operand: &Value,
    when_true: u32,
    when_false: u32,
    register: u32,
    on: u32,
    off: u32,
) -> Result<u32, AllocError>
    requires on { HasPoint b.old on }
    requires off { HasPoint b.old off }
    ensures { GivesTest b.old b.new result (λ types. e.Decide Void (value_of types operand.now) when_true when_false) register on off }
{
    let marked_on = b.both_marks(when_true, when_false, true, on)?;
    let marked_off = b.both_marks(when_true, when_false, false, off)?;
    test(b, operand, register, marked_on, marked_off)
}

/// An expression, and the mark of `pc_after` behind it.
#[cycle(expression)]
pub fn after(
    b: &mut Builder,
    fate: Fate,
    operand: &Value,
    id: u32,
    register: u32,
    to: u32,
) -> Result<u32, AllocError>
    requires { HasPoint b.old to }
    ensures { GivesValue b.old b.new result fate (λ types. e.After Void (value_of types operand.now) id) register to }
{
    let marked = b.fixed_mark(id, true, to)?;
    value(b, fate.of_last(), operand, register, marked)
}
