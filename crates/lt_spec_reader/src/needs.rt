//! The requirements that lines say, and the ranges of functions without a body.

ghost use Rattle.std.specs.Prelude.{◌≡◌, ◌++◌, IfOk, OnOk, List, Some, map, flat_map, filter_map, neg_ℤ, option_to_list};
ghost use Rattle.lt_tree.specs.Typing.ProgramView.{program_of};
ghost use Rattle.lt_entry.specs.Written as words;
ghost use Rattle.lt_entry.specs.SpecificationLines as written;
ghost use Rattle.lt_entry.specs.SpecificationLines.{addends, op_of};
ghost use Rattle.lt_entry.specs.Conditions as conditions;
ghost use Rattle.lt_entry.specs.Meaning.{need_said, need_terms, factor_of, stub_range};
ghost use Rattle.lt_entry.specs.Views.{numeral_view};
ghost use Rattle.lt_entry.specs.LineViews.{relation_view, term_view, addend_view, require_view, line_view};
ghost use Rattle.lt_input_names.specs.Kinds.{AreKinds};
ghost use Rattle.lt_input_names.specs.Stubs.{stub_view};
ghost use Rattle.lt_input_names.specs.Views.{AreNames, scope_of};
ghost use Rattle.lt_spec_reader.specs.Said.{HasRanges, range_in, part_term};

use crate::stubs::Ranges;
use lt_entry::{Addend, Line, Numeral, Relation, RequireLine, Term};
use lt_input_names::{Kinds, Names, Part, Stub, stubs_of};
use lt_input_wants::value_of;
use lt_model::{DataModel, Name, Need, NeedTerm, Op, Place, Sequence, StubRange, greatest, least};
use std::alloc::{AllocError, Global};

// ---- requirements

// A numeral of the same size and the other sign.
fn negated(numeral: Numeral) -> Numeral
    ensures { words.value_of (numeral_view result) ≡ neg_ℤ (words.value_of (numeral_view numeral)) }
{
    Numeral {
        is_negative: !numeral.is_negative,
        size: numeral.size,
    }
}

// The factor of a term behind a plus or a minus.
fn factor_of(is_minus: bool, term: &Term<'_>) -> i128
    ensures { result ≡ factor_of (record { is_minus = is_minus; term = term_view term.now }) }
{
    let factor = match term.factor {
        None => Numeral {
            is_negative: false,
            size: 1,
        },
        Some(numeral) => numeral,
    };
    if is_minus {
        value_of(negated(factor))
    } else {
        value_of(factor)
    }
}

// A part, with the factor of a term behind a plus or a minus.
fn part_term(
    alloc: Global,
    is_minus: bool,
    term: &Term<'_>,
    part: &Part,
) -> Result<NeedTerm, AllocError>
    ensures { IfOk result (λ it. it ≡ part_term (record { is_minus = is_minus; term = term_view term.now }) part.now) }
{
    let root = Name::new(alloc, part.place.root.as_slice())?;
    Ok(NeedTerm {
        at: Place {
            root,
            offset: part.place.offset,
        },
        factor: factor_of(is_minus, term),
    })
}

// Behind these, the parts that a term behind a plus or a minus names.
fn put_parts(
    alloc: Global,
    terms: &mut Vec<NeedTerm>,
    is_minus: bool,
    term: &Term<'_>,
    parts: &[Part],
) -> Result<(), AllocError>
    ensures { OnOk result (terms.new.items ≡ terms.old.items ++ map (part_term (record { is_minus = is_minus; term = term_view term.now })) parts.now) }
{
    for part in parts {
        terms.push(part_term(alloc, is_minus, term, part)?)?;
    }
    Ok(())
}

// Behind these, what a term behind a plus or a minus stands for.
fn put_terms(
    alloc: Global,
    names: &Names<'_>,
    terms: &mut Vec<NeedTerm>,
    is_minus: bool,
    term: &Term<'_>,
) -> Result<(), AllocError>
    requires { AreNames names.now }
    ensures { OnOk result (terms.new.items ≡ terms.old.items ++ need_terms (scope_of names.now) (record { is_minus = is_minus; term = term_view term.now })) }
{
    let parts = names.parts(alloc, &term.place)?;
    put_parts(alloc, terms, is_minus, term, parts.as_slice())
}

// Behind these, what addends stand for.
fn put_addends(
    alloc: Global,
    names: &Names<'_>,
    terms: &mut Vec<NeedTerm>,
    addends: &[Addend<'_>],
) -> Result<(), AllocError>
    requires { AreNames names.now }
    ensures { OnOk result (terms.new.items ≡ terms.old.items ++ flat_map (need_terms (scope_of names.now)) (map addend_view addends.now)) }
{
    for addend in addends {
        put_terms(alloc, names, terms, addend.is_minus, &addend.term)?;
    }
    Ok(())
}

fn op_of(relation: Relation) -> Op
    ensures { result ≡ op_of (relation_view relation) }
{
    match relation {
        Relation::AtMost => Op::Le,
        Relation::AtLeast => Op::Ge,
        Relation::EqualTo => Op::Eq,
    }
}

// The requirement that a line says.
fn need_of(alloc: Global, names: &Names<'_>, line: &RequireLine<'_>) -> Result<Need, AllocError>
    requires { AreNames names.now }
    ensures { IfOk result (λ need. Some need ≡ need_said (scope_of names.now) (require_view line.now)) }
{
    let mut terms = Vec::new(alloc);
    put_terms(alloc, names, &mut terms, false, &line.first)?;
    put_addends(alloc, names, &mut terms, line.others.as_slice())?;
    Ok(Need {
        terms: Sequence::new(terms),
        rel: op_of(line.relation),
        constant: value_of(line.constant),
    })
}

// Behind these, the requirement that a line says, if it says one.
fn put_need(
    alloc: Global,
    names: &Names<'_>,
    needs: &mut Vec<Need>,
    line: &Line<'_>,
) -> Result<(), AllocError>
    requires { AreNames names.now }
    ensures { OnOk result (needs.new.items ≡ needs.old.items ++ option_to_list (need_said (scope_of names.now) (line_view line.now))) }
{
    match line {
        Line::Require(require) => Ok(needs.push(need_of(alloc, names, require)?)?),
        Line::Entry(_) | Line::Block(_) | Line::Range(_) | Line::Points(_) | Line::Stub(_) => {
            Ok(())
        }
    }
}

/// The requirements that lines say.
pub fn needs_of(
    alloc: Global,
    names: &Names<'_>,
    lines: &[Line<'_>],
) -> Result<Vec<Need>, AllocError>
    requires { AreNames names.now }
    ensures { IfOk result (λ needs. needs.items ≡ filter_map (need_said (scope_of names.now)) (map line_view lines.now)) }
{
    let mut needs = Vec::new(alloc);
    for line in lines {
        put_need(alloc, names, &mut needs, line)?;
    }
    Ok(needs)
}

// ---- functions without a body

// The range that a line says of a function without a body, or all values.
fn range_of(
    alloc: Global,
    model: DataModel,
    ranges: &Ranges<'_>,
    stub: &Stub<'_>,
) -> Result<StubRange, AllocError>
    ensures { IfOk result (λ range. range ≡ range_in model ranges.now (stub_view stub.now)) }
{
    let name = Name::new(alloc, stub.name)?;
    match ranges.get(stub.name) {
        None => Ok(StubRange {
            name,
            lo: least(model, stub.ty),
            hi: greatest(model, stub.ty),
        }),
        Some(line) => Ok(StubRange {
            name,
            lo: value_of(line.low),
            hi: value_of(line.high),
        }),
    }
}

// The ranges of these functions.
fn ranges_among(
    alloc: Global,
    model: DataModel,
    ranges: &Ranges<'_>,
    stubs: &[Stub<'_>],
) -> Result<Vec<StubRange>, AllocError>
    ensures { IfOk result (λ all. all.items ≡ map (λ stub. range_in model ranges.now (stub_view stub)) stubs.now) }
{
    let mut all = Vec::new(alloc);
    for stub in stubs {
        all.push(range_of(alloc, model, ranges, stub)?)?;
    }
    Ok(all)
}

/// The ranges of functions without a body: those that lines say, and all values of the others.
pub fn ranges_of(
    alloc: Global,
    kinds: &Kinds<'_>,
    ranges: &Ranges<'_>,
) -> Result<Vec<StubRange>, AllocError>
    requires { AreKinds kinds.now }
    ensures { (lines : List written.Line) → HasRanges lines ranges.now → IfOk result (λ all. all.items ≡ map (stub_range (program_of kinds.now.program.now) lines) (conditions.stubs_of (program_of kinds.now.program.now))) }
{
    let stubs = stubs_of(alloc, kinds)?;
    ranges_among(alloc, kinds.program.model, ranges, &stubs)
}
