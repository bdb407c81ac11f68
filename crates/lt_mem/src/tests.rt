//! What calls give, worked out by hand.

use crate::{MemStop, Memory};
use lt_model::{
    Address, CellType, Content, DataModel, Op, Scalar, Sequence, Shape, ShapeCell, Ub, is_value,
};
use std::alloc::{AllocError, Global};
use std::test::Fail;

const INT: CellType = CellType::Num(Scalar::Int);

const SHORT: CellType = CellType::Num(Scalar::Short);

const UNSIGNED: CellType = CellType::Num(Scalar::UInt);

const POINTER: CellType = CellType::Pointer(3);

const OTHER_POINTER: CellType = CellType::Pointer(4);

type Load = (Option<Address>, CellType, Result<Content, Ub>);

type Store = (Option<Address>, Scalar, i128, Result<(), Ub>);

type Move = (Option<Address>, i128, u64, Result<Option<Address>, Ub>);

type Comparison = (Op, Option<Address>, Option<Address>, Result<bool, Ub>);

type Difference = (Option<Address>, Option<Address>, u64, Result<i128, Ub>);

const fn at(block: u32, offset: u64) -> Option<Address> {
    Some(Address { block, offset })
}

const fn number(z: i128) -> Result<Content, Ub> {
    Ok(Content::Number(z))
}

// The helpers promise nothing, so that the tests are proved quickly.
fn shape(alloc: Global, cells: &[(u64, CellType)], size: u64) -> Result<Shape, AllocError> {
    let mut list = Vec::new(alloc);
    for (offset, ty) in cells {
        list.push(ShapeCell {
            offset: *offset,
            ty: *ty,
        })?;
    }
    Ok(Shape {
        cells: Sequence::new(list),
        size,
    })
}

fn ints(alloc: Global, count: u32) -> Result<Shape, AllocError> {
    let mut list = Vec::new(alloc);
    for k in 0..count {
        list.push(ShapeCell {
            offset: 4 * u64::from(k),
            ty: INT,
        })?;
    }
    Ok(Shape {
        cells: Sequence::new(list),
        size: 4 * u64::from(count),
    })
}

fn made(memory: &mut Memory, shape: &Shape, zero: bool) -> Result<u32, AllocError> {
    match memory.create(shape, zero, true) {
        Ok(block) => Ok(block),
        Err(_) => Err(AllocError),
    }
}

// A memory with objects of so many cells of type `int` each.
fn memory_of(alloc: Global, counts: &[u32], zero: bool) -> Result<Memory, AllocError> {
    let mut memory = Memory::new(alloc, DataModel::Lp64)?;
    for count in counts {
        made(&mut memory, &ints(alloc, *count)?, zero)?;
    }
    Ok(memory)
}

fn load_all(memory: &Memory, rows: &[Load]) -> bool {
    for row in rows {
        let (from, ty, wanted) = *row;
        if memory.load(from, ty) != wanted {
            return false;
        }
    }
    true
}

fn store_all(memory: &mut Memory, rows: &[Store]) -> bool {
    for row in rows {
        let (to, ty, z, wanted) = *row;
        if !is_value(memory.model(), ty, z) {
            return false;
        }
        if memory.store(to, CellType::Num(ty), Content::Number(z)) != wanted {
            return false;
        }
    }
    true
}

fn move_all(memory: &Memory, rows: &[Move]) -> bool {
    for row in rows {
        let (from, count, size, wanted) = *row;
        if memory.move_by(from, count, size) != wanted {
            return false;
        }
    }
    true
}

fn compare_all(memory: &Memory, rows: &[Comparison]) -> bool {
    for row in rows {
        let (op, a, b, wanted) = *row;
        if memory.compare(op, a, b) != wanted {
            return false;
        }
    }
    true
}

fn subtract_all(memory: &Memory, rows: &[Difference]) -> bool {
    for row in rows {
        let (a, b, size, wanted) = *row;
        if memory.subtract(a, b, size) != wanted {
            return false;
        }
    }
    true
}

#[test]
fn addresses_move_within_an_object(rt: HostRuntime) -> Result<(), Fail> {
    let mut memory = memory_of(rt.alloc(), &[2], true)?;
    let moves = [
        (at(0, 0), 2, 4, Ok(at(0, 8))),
        (at(0, 0), 3, 4, Err(Ub::Move)),
        (at(0, 4), -1, 4, Ok(at(0, 0))),
        (at(0, 0), -1, 4, Err(Ub::Move)),
        (at(0, 0), i128::MAX, u64::MAX, Err(Ub::Move)),
        (None, 0, 4, Err(Ub::Move)),
    ];
    assert!(rt; move_all(&memory, &moves));
    memory.end(0);
    assert!(rt; move_all(&memory, &[(at(0, 0), 0, 4, Err(Ub::Ended))]));
    Ok(())
}

#[test]
fn loads_meet_a_cell(rt: HostRuntime) -> Result<(), Fail> {
    let alloc = rt.alloc();
    let mut memory = memory_of(alloc, &[2], true)?;
    assert!(rt; made(&mut memory, &ints(alloc, 1)?, false)? == 1);
    let loads = [
        (at(0, 4), INT, number(0)),
        (at(0, 8), INT, Err(Ub::NoCell)),
        (at(0, 2), INT, Err(Ub::NoCell)),
        (at(0, 0), SHORT, Err(Ub::NoCell)),
        (None, INT, Err(Ub::Null)),
        (at(7, 0), INT, Err(Ub::Ended)),
        (at(1, 0), INT, Err(Ub::Unset)),
    ];
    assert!(rt; load_all(&memory, &loads));
    memory.end(0);
    assert!(rt; load_all(&memory, &[(at(0, 0), INT, Err(Ub::Ended))]));
    Ok(())
}

#[test]
fn stores_convert_to_the_type_of_the_cell(rt: HostRuntime) -> Result<(), Fail> {
    let mut memory = memory_of(rt.alloc(), &[2], false)?;
    let stores = [
        (at(0, 4), Scalar::UInt, 4_294_967_295, Ok(())),
        (at(0, 8), Scalar::Int, 1, Err(Ub::NoCell)),
    ];
    assert!(rt; store_all(&mut memory, &stores));
    memory.seal(0);
    assert!(rt; store_all(&mut memory, &[(at(0, 4), Scalar::Int, 1, Err(Ub::Sealed))]));
    let loads = [
        (at(0, 4), INT, number(-1)),
        (at(0, 4), UNSIGNED, number(4_294_967_295)),
    ];
    assert!(rt; load_all(&memory, &loads));
    memory.end(0);
    let refused = [
        (at(0, 4), Scalar::Int, 1, Err(Ub::Ended)),
        (None, Scalar::Int, 1, Err(Ub::Null)),
    ];
    assert!(rt; store_all(&mut memory, &refused));
    Ok(())
}

// Cells of every order of offsets, also where two stand at one.
#[test]
fn cells_are_found_whatever_their_offsets(rt: HostRuntime) -> Result<(), Fail> {
    let alloc = rt.alloc();
    let mut memory = memory_of(alloc, &[], true)?;
    let rising = shape(alloc, &[(0, SHORT), (4, INT), (8, SHORT), (16, INT)], 20)?;
    let falling = shape(alloc, &[(16, INT), (8, SHORT), (4, INT), (0, SHORT)], 20)?;
    let both = shape(alloc, &[(0, SHORT), (0, INT)], 4)?;
    for shape in [&rising, &falling, &both] {
        made(&mut memory, shape, true)?;
    }
    let stores = [
        (at(0, 16), Scalar::Int, 5, Ok(())),
        (at(0, 8), Scalar::Short, 6, Ok(())),
        (at(1, 16), Scalar::Int, 5, Ok(())),
        (at(1, 8), Scalar::Short, 6, Ok(())),
        (at(2, 0), Scalar::Int, 7, Ok(())),
    ];
    assert!(rt; store_all(&mut memory, &stores));
    let loads = [
        (at(0, 16), INT, number(5)),
        (at(0, 8), SHORT, number(6)),
        (at(0, 4), INT, number(0)),
        (at(0, 12), INT, Err(Ub::NoCell)),
        (at(1, 16), INT, number(5)),
        (at(1, 8), SHORT, number(6)),
        (at(1, 4), INT, number(0)),
        (at(1, 12), INT, Err(Ub::NoCell)),
        (at(2, 0), INT, number(7)),
        (at(2, 0), SHORT, number(0)),
    ];
    assert!(rt; load_all(&memory, &loads));
    Ok(())
}

#[test]
fn addresses_are_compared_and_subtracted(rt: HostRuntime) -> Result<(), Fail> {
    let mut memory = memory_of(rt.alloc(), &[2, 2], true)?;
    let comparisons = [
        (Op::Lt, at(0, 0), at(1, 0), Err(Ub::Unrelated)),
        (Op::Eq, at(0, 0), at(1, 0), Ok(false)),
        (Op::Ne, at(0, 4), None, Ok(true)),
        (Op::Lt, at(0, 0), at(0, 4), Ok(true)),
        (Op::Ge, at(0, 0), at(0, 4), Ok(false)),
        (Op::Lt, None, at(0, 4), Err(Ub::Unrelated)),
        (Op::Eq, at(0, 0), at(9, 0), Err(Ub::Ended)),
    ];
    assert!(rt; compare_all(&memory, &comparisons));
    let differences = [
        (at(0, 0), at(0, 8), 4, Ok(-2)),
        (at(0, 8), at(0, 2), 4, Err(Ub::Unrelated)),
        (at(0, 8), at(0, 0), 0, Err(Ub::Unrelated)),
        (at(0, 8), at(1, 0), 4, Err(Ub::Unrelated)),
        (at(0, 8), None, 4, Err(Ub::Unrelated)),
    ];
    assert!(rt; subtract_all(&memory, &differences));
    memory.end(1);
    assert!(rt; compare_all(&memory, &[(Op::Eq, at(1, 0), at(1, 0), Err(Ub::Ended))]));
    assert!(rt; subtract_all(&memory, &[(at(1, 0), at(0, 0), 4, Err(Ub::Ended))]));
    Ok(())
}

#[test]
fn addresses_are_stored_by_pointer_types(rt: HostRuntime) -> Result<(), Fail> {
    let alloc = rt.alloc();
    let mut memory = memory_of(alloc, &[2], true)?;
    assert!(rt; made(&mut memory, &shape(alloc, &[(0, POINTER)], 8)?, true)? == 1);
    assert!(rt; load_all(&memory, &[(at(1, 0), POINTER, Ok(Content::Address(None)))]));
    let stored = memory.store(at(1, 0), POINTER, Content::Address(at(0, 4)));
    assert!(rt; stored == Ok(()));
    let loads = [
        (at(1, 0), POINTER, Ok(Content::Address(at(0, 4)))),
        (at(1, 0), OTHER_POINTER, Err(Ub::NoCell)),
    ];
    assert!(rt; load_all(&memory, &loads));
    memory.end(0);
    assert!(rt; load_all(&memory, &[(at(1, 0), POINTER, Err(Ub::Ended))]));
    Ok(())
}

#[test]
fn structs_are_copied_as_they_are(rt: HostRuntime) -> Result<(), Fail> {
    let alloc = rt.alloc();
    let mut memory = memory_of(alloc, &[2, 2], false)?;
    let pair = ints(alloc, 2)?;
    let stores = [
        (at(0, 0), Scalar::Int, 5, Ok(())),
        (at(1, 4), Scalar::Int, 6, Ok(())),
    ];
    assert!(rt; store_all(&mut memory, &stores));
    assert!(rt; memory.copy_struct(at(1, 0), at(0, 0), &pair) == Ok(()));
    let loads = [(at(1, 0), INT, number(5)), (at(1, 4), INT, Err(Ub::Unset))];
    assert!(rt; load_all(&memory, &loads));
    memory.seal(1);
    memory.end(0);
    let copies = [
        (at(1, 4), at(1, 0), Err(Ub::NoCell)),
        (at(1, 0), at(1, 0), Err(Ub::Sealed)),
        (at(1, 0), at(0, 0), Err(Ub::Ended)),
        (None, at(0, 0), Err(Ub::Null)),
    ];
    for (to, from, wanted) in copies {
        assert!(rt; memory.copy_struct(to, from, &pair) == wanted);
    }
    Ok(())
}

// All cells are read before one is written, also within one object, and whatever cells the shape has.
#[test]
fn a_copy_may_overlap_its_source(rt: HostRuntime) -> Result<(), Fail> {
    let alloc = rt.alloc();
    let mut memory = memory_of(alloc, &[3], false)?;
    let stores = [
        (at(0, 0), Scalar::Int, 0, Ok(())),
        (at(0, 4), Scalar::Int, 1, Ok(())),
        (at(0, 8), Scalar::Int, 2, Ok(())),
    ];
    assert!(rt; store_all(&mut memory, &stores));
    assert!(rt; memory.copy_struct(at(0, 4), at(0, 0), &ints(alloc, 2)?) == Ok(()));
    assert!(rt;
        load_all(
            &memory,
            &[(at(0, 4), INT, number(0)), (at(0, 8), INT, number(1))]
        )
    );
    let long = shape(alloc, &[(0, INT), (4, INT), (0, INT), (4, INT)], 8)?;
    assert!(rt; memory.copy_struct(at(0, 0), at(0, 4), &long) == Ok(()));
    assert!(rt;
        load_all(
            &memory,
            &[(at(0, 0), INT, number(0)), (at(0, 4), INT, number(1))]
        )
    );
    Ok(())
}

#[test]
fn ended_objects_leave_room(rt: HostRuntime) -> Result<(), Fail> {
    let alloc = rt.alloc();
    let mut memory = Memory::new(alloc, DataModel::Ilp32)?;
    let large = ints(alloc, 4_194_304)?;
    let one = ints(alloc, 1)?;
    for block in 0..2 {
        assert!(rt; made(&mut memory, &large, false)? == block);
        assert!(rt; matches!(memory.create(&one, false, true), Err(MemStop::Cells)));
        memory.end(block);
    }
    for block in 2..20_000 {
        assert!(rt; made(&mut memory, &one, false)? == block);
        memory.end(block);
        memory.end(block);
    }
    assert!(rt; matches!(memory.create(&large, false, true), Ok(20_000)));
    Ok(())
}
