//! Systems, what is decided of them, and how the answer shows.
use lt_elim::{Decision, can_decide, decide};
use lt_lin::{Row, System, Terms, check_lines, reserve};
use std::alloc::{AllocError, Global};
use std::test::Fail;
use std::vec::Vec;

/// A row of terms, in order, and a constant.
pub(crate) fn row(alloc: Global, terms: &[(u32, i128)], constant: i128) -> Result<Row, AllocError> {
    match Terms::from_vec(Vec::from_slice(alloc, terms)?) {
        Some(terms) => Ok(Row { terms, constant }),
        None => Err(AllocError),
    }
}

/// The decision on rows that are small enough.
pub(crate) fn decided(alloc: Global, rows: Vec<Row>) -> Result<(System, Decision), AllocError> {
    let system = System { rows };
    if !can_decide(&system) {
        return Err(AllocError);
    }
    let decision = decide(alloc, &system)?;
    Ok((system, decision))
}

/// Whether the rows are refuted, by lines that a check takes.
pub(crate) fn is_refuted(alloc: Global, rows: Vec<Row>) -> Result<bool, AllocError> {
    let (system, decision) = decided(alloc, rows)?;
    let Decision::Refuted(lines) = decision else {
        return Ok(false);
    };
    let mut room = reserve(alloc, &system, lines.as_slice())?;
    Ok(check_lines(&system, lines.as_slice(), &mut room))
}

/// Whether the rows have just this point.
pub(crate) fn has_point(
    alloc: Global,
    rows: Vec<Row>,
    over: &[i128],
    under: &[i128],
) -> Result<bool, AllocError> {
    let (_system, decision) = decided(alloc, rows)?;
    let Decision::Point(numerators, denominators) = decision else {
        return Ok(false);
    };
    Ok(numerators.as_slice() == over && denominators.as_slice() == under)
}

#[test]
fn no_rows_have_the_empty_point(rt: HostRuntime) -> Result<(), Fail> {
    let alloc = rt.alloc();
    assert!(rt; has_point(alloc, Vec::new(alloc), &[], &[])?);
    Ok(())
}

#[test]
fn thirds_are_refuted(rt: HostRuntime) -> Result<(), Fail> {
    let alloc = rt.alloc();
    let rows = vec![in alloc; row(alloc, &[(0, 3)], -1)?, row(alloc, &[(0, -3)], 2)?]?;
    assert!(rt; is_refuted(alloc, rows)?);
    Ok(())
}

#[test]
fn halves_have_the_least_point(rt: HostRuntime) -> Result<(), Fail> {
    let alloc = rt.alloc();
    let rows = vec![in alloc;
        row(alloc, &[(0, 1)], 0)?,
        row(alloc, &[(0, -1)], 1)?,
        row(alloc, &[(0, -1), (1, 2)], 0)?,
        row(alloc, &[(0, 1), (1, -2)], 0)?,
    ]?;
    assert!(rt; has_point(alloc, rows, &[0, 0], &[1, 1])?);
    Ok(())
}

#[test]
fn wide_factors_end(rt: HostRuntime) -> Result<(), Fail> {
    let alloc = rt.alloc();
    let large = 1 << 100;
    let half = 1 << 99;
    let rows = vec![in alloc;
        row(alloc, &[(0, half + 1), (1, large)], 0)?,
        row(alloc, &[(0, 1), (1, 1 - large)], 0)?,
    ]?;
    let (_system, decision) = decided(alloc, rows)?;
    let at_second = matches!(&decision, Decision::Coeff(variable) if *variable == 1);
    assert!(rt; at_second);
    Ok(())
}

#[test]
fn circle_is_refuted(rt: HostRuntime) -> Result<(), Fail> {
    let alloc = rt.alloc();
    let rows = vec![in alloc;
        row(alloc, &[(0, -1), (1, 1)], -1)?,
        row(alloc, &[(1, -1), (2, 1)], -1)?,
        row(alloc, &[(0, 1), (2, -1)], -1)?,
    ]?;
    assert!(rt; is_refuted(alloc, rows)?);
    Ok(())
}

// 3x + 5y is 7, and both are from 0 to 1.
#[test]
fn fifths_have_a_point(rt: HostRuntime) -> Result<(), Fail> {
    let alloc = rt.alloc();
    let rows = vec![in alloc;
        row(alloc, &[(0, 1)], 0)?,
        row(alloc, &[(0, -1)], 1)?,
        row(alloc, &[(1, 1)], 0)?,
        row(alloc, &[(1, -1)], 1)?,
        row(alloc, &[(0, 3), (1, 5)], -7)?,
        row(alloc, &[(0, -3), (1, -5)], 7)?,
    ]?;
    assert!(rt; has_point(alloc, rows, &[1, 4], &[1, 5])?);
    Ok(())
}
