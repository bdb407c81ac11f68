//! Difference systems of five variables, and the points that shortest paths give, which were reckoned elsewhere.
use crate::systems::{decided, has_point, is_refuted, row};
use lt_elim::Decision;
use lt_lin::Row;
use std::alloc::{AllocError, Global};
use std::test::Fail;
use std::vec::Vec;

// The number of a system, the variables of its row with the factors 1 and -1, where -1 stands for none, and the constant.
const EDGES: [(usize, i32, i32, i128); 94] = [
    (0, 2, 1, -1),
    (0, -1, 2, 3),
    (0, 4, 0, 0),
    (0, 4, -1, -4),
    (0, 2, 0, -5),
    (0, 0, 2, 10),
    (1, -1, 2, 13),
    (1, -1, 3, 12),
    (1, 3, -1, 1),
    (1, 3, 2, -6),
    (1, 0, 2, 16),
    (1, 2, -1, -6),
    (1, 3, 2, 20),
    (1, 3, -1, 9),
    (1, 4, 3, 3),
    (1, 3, -1, 13),
    (2, 3, -1, 17),
    (2, 1, 2, 7),
    (2, 0, 3, 13),
    (2, -1, 4, 19),
    (2, 3, 0, 18),
    (2, 2, 1, 12),
    (2, 4, -1, 17),
    (3, 4, 1, 2),
    (3, 1, -1, 15),
    (3, -1, 1, 17),
    (3, 1, 3, -2),
    (3, 0, -1, 11),
    (3, 2, 1, 9),
    (3, 0, 2, 0),
    (3, 2, 0, 0),
    (3, 1, -1, 7),
    (4, 4, 1, 0),
    (4, 4, -1, -1),
    (4, 1, 0, 20),
    (4, 4, 0, 10),
    (4, -1, 2, 4),
    (4, 3, 4, 13),
    (4, 1, 0, 3),
    (4, -1, 1, 9),
    (4, 3, 2, 10),
    (4, 1, 0, 0),
    (4, 4, 1, 13),
    (4, 4, 2, 20),
    (5, 4, 0, -2),
    (5, 1, 2, 19),
    (5, 0, 2, 9),
    (5, 2, -1, -2),
    (5, 4, -1, 16),
    (5, 1, 2, 3),
    (5, 4, 3, 14),
    (5, 4, 2, 12),
    (6, 3, 1, 2),
    (6, 1, 3, 3),
    (6, 1, 3, 2),
    (6, 2, 1, 13),
    (6, 1, 2, 17),
    (6, 3, 0, -6),
    (6, -1, 0, -2),
    (6, 2, 1, 8),
    (6, 0, 1, 2),
    (6, 2, 0, 5),
    (6, 2, 3, 14),
    (6, 2, 4, 8),
    (7, 3, 2, -1),
    (7, -1, 3, -1),
    (7, 0, 1, -6),
    (7, 2, 0, 12),
    (7, -1, 2, 9),
    (7, 4, 2, 12),
    (7, 0, 2, 17),
    (7, -1, 2, 13),
    (7, 3, -1, 5),
    (7, 2, 0, -3),
    (7, 1, 0, 0),
    (7, 3, -1, 1),
    (8, 3, 2, -1),
    (8, 4, 2, -2),
    (8, 3, 0, 6),
    (8, 2, 3, 18),
    (8, 4, -1, 0),
    (8, 3, 2, 11),
    (8, 1, 2, -2),
    (8, 2, -1, 16),
    (8, 3, 4, 15),
    (8, -1, 4, -4),
    (8, -1, 4, 2),
    (8, 3, 4, -3),
    (9, -1, 0, 7),
    (9, 4, 0, -6),
    (9, 4, 3, 3),
    (9, -1, 4, 5),
    (9, 0, 2, 16),
    (9, -1, 3, 9),
];

// Whether the system has a point, and the values of its variables.
const POINTS: [(bool, [i128; 5]); 10] = [
    (true, [-2, 2, 3, 0, 4]),
    (true, [-10, 0, 6, 12, 9]),
    (true, [-30, 0, -12, -17, -17]),
    (true, [-11, -7, -11, -9, -9]),
    (true, [9, 9, 4, -4, 9]),
    (true, [-7, -1, 2, 0, -5]),
    (false, [0, 0, 0, 0, 0]),
    (false, [0, 0, 0, 0, 0]),
    (false, [0, 0, 0, 0, 0]),
    (true, [-1, 0, 15, 8, 5]),
];

// The row that says that one variable is no more than the constant below the other.
fn edge(alloc: Global, plus: i32, minus: i32, constant: i128) -> Result<Row, AllocError> {
    let first = (plus.unsigned_abs(), 1);
    let second = (minus.unsigned_abs(), -1);
    if plus < 0 {
        row(alloc, &[second], constant)
    } else if minus < 0 {
        row(alloc, &[first], constant)
    } else if plus < minus {
        row(alloc, &[first, second], constant)
    } else {
        row(alloc, &[second, first], constant)
    }
}

fn edges(alloc: Global, number: usize) -> Result<Vec<Row>, AllocError> {
    let mut rows = Vec::new(alloc);
    for (system, plus, minus, constant) in EDGES {
        if system == number {
            rows.push(edge(alloc, plus, minus, constant)?)?;
        }
    }
    Ok(rows)
}

#[test]
fn points_are_shortest_paths(rt: HostRuntime) -> Result<(), Fail> {
    let alloc = rt.alloc();
    for number in 0..10 {
        let (has, values) = POINTS[number];
        let rows = edges(alloc, number)?;
        let right = if has {
            has_point(alloc, rows, &values, &[1, 1, 1, 1, 1])?
        } else {
            is_refuted(alloc, rows)?
        };
        assert!(rt; right);
    }
    Ok(())
}

#[test]
fn many_rows_have_a_point(rt: HostRuntime) -> Result<(), Fail> {
    let alloc = rt.alloc();
    let mut rows = Vec::new(alloc);
    for turn in 0..200_u32 {
        let plus = (turn * 7 + turn / 40) % 40;
        let minus = (turn * 11 + 3 + turn / 7) % 40;
        if plus != minus {
            let constant = i128::from(turn % 9);
            rows.push(edge(alloc, plus as i32, minus as i32, constant)?)?;
        }
    }
    let (_system, decision) = decided(alloc, rows)?;
    assert!(rt; matches!(&decision, Decision::Point(_, _)));
    Ok(())
}
