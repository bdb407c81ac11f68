// The order in which the cells of structs follow one from the other. It says nothing but how soon they are all known.

use crate::facts::{Facts, Part, facts_at};
use lt_tree::typed::{Member, StructType};
use std::alloc::{AllocError, Global};

// A struct whose members are gone through, and how many are done.
#[derive(Clone, Copy)]
struct Visit {
    number: usize,
    done: usize,
}

/// The numbers of structs, each behind those of the structs that it holds, as far as none holds itself. What is left to be gone through stands on a
/// stack; so structs may nest however deep. More than 2^64 steps end as want of memory does.
pub fn order(
    alloc: Global,
    facts: &[Facts],
    structs: &[StructType],
) -> Result<Vec<usize>, AllocError> {
    let mut order = Vec::new(alloc);
    let mut seen = vec![in alloc; false; structs.len()]?;
    let mut left = Vec::new(alloc);
    for number in 0..structs.len() {
        left.push(Visit { number, done: 0 })?;
    }
    for _step in 0..u64::MAX {
        let Some(visit) = left.pop() else {
            return Ok(order);
        };
        if is_to_do(&mut seen, visit) {
            go_on(facts, structs, &mut order, &mut left, visit)?;
        }
    }
    Err(AllocError)
}

// The next member of a struct: the struct that it holds comes first. Behind the last, the struct has its place.
fn go_on(
    facts: &[Facts],
    structs: &[StructType],
    order: &mut Vec<usize>,
    left: &mut Vec<Visit>,
    visit: Visit,
) -> Result<(), AllocError> {
    let members = members_of(structs, visit.number);
    if visit.done >= members.len() {
        return Ok(order.push(visit.number)?);
    }
    left.push(Visit {
        done: visit.done + 1,
        ..visit
    })?;
    match facts_at(facts, members[visit.done].ty).part {
        Part::Struct(held) => Ok(left.push(Visit {
            number: held as usize,
            done: 0,
        })?),
        Part::Scalar | Part::Nothing => Ok(()),
    }
}

// Whether a struct wasn't met before, or is gone on with. Then it is met.
fn is_to_do(seen: &mut [bool], visit: Visit) -> bool {
    if visit.done > 0 {
        return true;
    }
    if visit.number >= seen.len() || seen[visit.number] {
        return false;
    }
    seen[visit.number] = true;
    true
}

// The members of a struct, as far as it has any.
fn members_of(structs: &[StructType], number: usize) -> &[Member] {
    match structs.get(number) {
        None => &[],
        Some(it) => match &it.members {
            None => &[],
            Some(members) => members.as_slice(),
        },
    }
}
