use crate::line::Line;
use crate::room::{check_lines, reserve};
use crate::row::{Row, System};
use crate::terms::Terms;
use std::alloc::{AllocError, Global};
use std::test::Fail;
use std::vec::Vec;

fn terms(alloc: Global, items: &[(u32, i128)]) -> Result<Terms, AllocError> {
    match Terms::from_vec(Vec::from_slice(alloc, items)?) {
        Some(terms) => Ok(terms),
        None => Err(AllocError),
    }
}

fn row(alloc: Global, items: &[(u32, i128)], constant: i128) -> Result<Row, AllocError> {
    Ok(Row {
        terms: terms(alloc, items)?,
        constant,
    })
}

fn combine(alloc: Global, pairs: &[(u32, i128)]) -> Result<Line, AllocError> {
    Ok(Line::Combine(Vec::from_slice(alloc, pairs)?))
}

// 3 v0 is at least 1 and at most 2.
fn thirds(alloc: Global) -> Result<System, AllocError> {
    Ok(System {
        rows: vec![in alloc; row(alloc, &[(0, 3)], -1)?, row(alloc, &[(0, -3)], 2)?]?,
    })
}

// Lines that refute it, whose rows are numbered from 2 to 4.
fn third_lines(alloc: Global) -> Result<Vec<Line>, AllocError> {
    Ok(vec![in alloc;
        Line::Divide(0, 3),
        Line::Divide(1, 3),
        combine(alloc, &[(2, 1), (3, 1)])?,
    ]?)
}

// 2 v0 + 4 v1 is 1.
fn odd(alloc: Global) -> Result<System, AllocError> {
    Ok(System {
        rows: vec![in alloc;
            row(alloc, &[(0, 2), (1, 4)], -1)?,
            row(alloc, &[(0, -2), (1, -4)], 1)?,
        ]?,
    })
}

fn odd_split(alloc: Global, low: Vec<Line>, high: Vec<Line>) -> Result<Line, AllocError> {
    Ok(Line::Split(terms(alloc, &[(0, 1), (1, 2)])?, 0, low, high))
}

fn is_refuted(alloc: Global, system: &System, lines: &[Line]) -> Result<bool, AllocError> {
    let mut room = reserve(alloc, system, lines)?;
    Ok(check_lines(system, lines, &mut room))
}

// Whether the lines that refute the thirds still do with one more line.
fn with_line(alloc: Global, line: Line) -> Result<bool, AllocError> {
    let mut lines = third_lines(alloc)?;
    lines.push(line)?;
    is_refuted(alloc, &thirds(alloc)?, lines.as_slice())
}

// Whether the odd system is refuted by a split with one line a side, and a line after it.
fn with_split(
    alloc: Global,
    low: &[(u32, i128)],
    high: &[(u32, i128)],
    after: &[(u32, i128)],
) -> Result<bool, AllocError> {
    let low = vec![in alloc; combine(alloc, low)?]?;
    let high = vec![in alloc; combine(alloc, high)?]?;
    let lines = vec![in alloc; odd_split(alloc, low, high)?, combine(alloc, after)?]?;
    is_refuted(alloc, &odd(alloc)?, lines.as_slice())
}

#[test]
fn terms_stand_in_order(rt: HostRuntime) -> Result<(), Fail> {
    let alloc = rt.alloc();
    let wanted = [
        (&[(0, 1), (4294967295, -1)], true),
        (&[(1, 1), (1, 1)], false),
        (&[(2, 1), (1, 1)], false),
        (&[(1, 1), (2, 0)], false),
    ];
    for (items, ordered) in wanted {
        let found = Terms::from_vec(Vec::from_slice(alloc, items.as_slice())?);
        assert!(rt; found.is_some() == ordered);
    }
    assert!(rt; terms(alloc, &[(3, 7)])?.into_vec().as_slice() == [(3, 7)].as_slice());
    Ok(())
}

#[test]
fn thirds_are_refuted(rt: HostRuntime) -> Result<(), Fail> {
    let alloc = rt.alloc();
    let system = thirds(alloc)?;
    let lines = third_lines(alloc)?;
    assert!(rt; is_refuted(alloc, &system, lines.as_slice())?);
    assert!(rt; !is_refuted(alloc, &system, &[])?);
    let negated = [
        Line::Divide(0, 3),
        Line::Divide(1, 3),
        combine(alloc, &[(2, 1), (3, -1)])?,
    ];
    assert!(rt; !is_refuted(alloc, &system, negated.as_slice())?);
    Ok(())
}

#[test]
fn each_line_is_valid(rt: HostRuntime) -> Result<(), Fail> {
    let alloc = rt.alloc();
    assert!(rt; with_line(alloc, Line::Divide(0, 1))?);
    assert!(rt; !with_line(alloc, Line::Divide(0, 0))?);
    assert!(rt; !with_line(alloc, Line::Divide(0, -3))?);
    assert!(rt; !with_line(alloc, Line::Divide(0, 2))?);
    assert!(rt; !with_line(alloc, Line::Divide(5, 1))?);
    assert!(rt; !with_line(alloc, combine(alloc, &[(5, 1)])?)?);
    assert!(rt; !with_line(alloc, combine(alloc, &[(0, i128::MAX)])?)?);
    Ok(())
}

#[test]
fn sums_are_taken_in_the_written_order(rt: HostRuntime) -> Result<(), Fail> {
    let alloc = rt.alloc();
    let large = 1 << 125;
    assert!(rt;
        with_line(
            alloc,
            combine(alloc, &[(0, large), (1, large), (0, large)])?
        )?
    );
    assert!(rt;
        !with_line(
            alloc,
            combine(alloc, &[(0, large), (0, large), (1, large)])?
        )?
    );
    Ok(())
}

#[test]
fn both_sides_of_a_split_are_refuted(rt: HostRuntime) -> Result<(), Fail> {
    let alloc = rt.alloc();
    let low = [(0, 1), (2, 2)];
    let high = [(1, 1), (2, 2)];
    assert!(rt; with_split(alloc, &low, &high, &[(0, 1)])?);
    assert!(rt; !with_split(alloc, &low, &[(1, 1)], &[(0, 1)])?);
    assert!(rt; !with_split(alloc, &[(0, 1)], &high, &[(0, 1)])?);
    assert!(rt; !with_split(alloc, &low, &[(3, 1)], &[(0, 1)])?);
    assert!(rt; !with_split(alloc, &low, &high, &[(2, 1)])?);
    Ok(())
}

#[test]
fn a_split_fits(rt: HostRuntime) -> Result<(), Fail> {
    let alloc = rt.alloc();
    let wanted = [
        (1, 0, true),
        (1, i128::MAX, false),
        (1, i128::MAX - 1, true),
        (i128::MIN, 0, false),
        (i128::MIN + 1, i128::MIN, true),
    ];
    for (factor, bound, valid) in wanted {
        let split = Line::Split(
            terms(alloc, &[(0, factor)])?,
            bound,
            Vec::new(alloc),
            Vec::new(alloc),
        );
        assert!(rt; with_line(alloc, split)? == valid);
    }
    Ok(())
}

#[test]
fn splits_nest(rt: HostRuntime) -> Result<(), Fail> {
    let alloc = rt.alloc();
    let mut low = Vec::new(alloc);
    for _ in 0..100 {
        let split = Line::Split(terms(alloc, &[(7, 1)])?, 5, low, Vec::new(alloc));
        low = vec![in alloc; split]?;
    }
    let split = Line::Split(terms(alloc, &[(7, 1)])?, 5, low, Vec::new(alloc));
    assert!(rt; with_line(alloc, split)?);
    Ok(())
}
