use crate::end::{end_block, keep_usable};
use crate::form::{offsets_in, targets_from};
use crate::join::join_value;
use crate::order::{is_nothing, is_value_below};
use crate::rows::{CONVERSIONS, MEMBERS, ORDERS, Parts, ROUNDINGS, Seed, THRESHOLDS};
use crate::target::Target;
use crate::truth::{keep_pointer, truths};
use crate::value::Value;
use lt_model::DataModel;
use lt_value::{Num, convert, is_below, is_member, join, round, single};
use std::alloc::{AllocError, Global};
use std::test::Fail;
use std::vec::Vec;

const LEAST: i128 = -0x8000_0000_0000_0000;

const GREATEST: i128 = 0xffff_ffff_ffff_ffff;

fn number(z: i128) -> Num {
    if LEAST <= z && z <= GREATEST {
        single(z)
    } else {
        single(0)
    }
}

// The least set that holds three numbers.
fn spread(seed: Seed) -> Num {
    join(&join(&number(seed.0), &number(seed.1)), &number(seed.2))
}

fn parts(n: &Num) -> Parts {
    (n.lo, n.hi, n.step, n.rest)
}

// Null, an ended address, never set.
#[derive(Clone, Copy)]
struct Marks {
    null: bool,
    ended: bool,
    unset: bool,
}

const NONE: Marks = Marks {
    null: false,
    ended: false,
    unset: false,
};

const NULL: Marks = Marks {
    null: true,
    ended: false,
    unset: false,
};

const ENDED: Marks = Marks {
    null: false,
    ended: true,
    unset: false,
};

const UNSET: Marks = Marks {
    null: false,
    ended: false,
    unset: true,
};

const ALL: Marks = Marks {
    null: true,
    ended: true,
    unset: true,
};

fn value(
    alloc: Global,
    num: Option<Seed>,
    marks: Marks,
    targets: &[(u32, Seed)],
) -> Result<Value, AllocError> {
    let mut list = Vec::new(alloc);
    for (block, at) in targets {
        list.push(Target {
            block: *block,
            at: spread(*at),
        })?;
    }
    let num = match num {
        None => None,
        Some(seed) => Some(spread(seed)),
    };
    match targets_from(list) {
        None => Err(AllocError),
        Some(targets) => Ok(Value {
            num,
            null: marks.null,
            targets,
            ended: marks.ended,
            unset: marks.unset,
        }),
    }
}

fn is_same(v: &Value, w: &Value) -> bool {
    v.num == w.num
        && v.null == w.null
        && v.ended == w.ended
        && v.unset == w.unset
        && v.targets.list.as_slice() == w.targets.list.as_slice()
}

#[test]
fn sets_convert_as_worked(rt: HostRuntime) {
    for row in CONVERSIONS.iter() {
        let (seed, ty, wanted) = *row;
        assert!(rt;
            parts(&convert(DataModel::Lp64, ty, &spread(seed))) == wanted,
            "{row:?}"
        );
    }
}

#[test]
fn sets_round_as_worked(rt: HostRuntime) {
    for row in ROUNDINGS.iter() {
        let (seed, wanted) = *row;
        assert!(rt;
            parts(&round(&spread(seed), THRESHOLDS.as_slice())) == wanted,
            "{row:?}"
        );
        assert!(rt;
            parts(&round(&spread(seed), &[])) == parts(&spread(seed)),
            "{row:?}"
        );
    }
}

#[test]
fn sets_are_ordered_as_worked(rt: HostRuntime) {
    for row in ORDERS.iter() {
        let (left, right, wanted) = *row;
        assert!(rt;
            is_below(&spread(left), &spread(right)) == wanted,
            "{row:?}"
        );
    }
    for row in MEMBERS.iter() {
        let (z, seed, wanted) = *row;
        assert!(rt; is_member(&spread(seed), z) == wanted, "{row:?}");
    }
}

#[test]
fn values_join_part_by_part(rt: HostRuntime) -> Result<(), Fail> {
    let alloc = rt.alloc();
    let left = value(
        alloc,
        Some((3, 3, 3)),
        NULL,
        &[(1, (0, 0, 0)), (3, (4, 4, 4))],
    )?;
    let right = value(
        alloc,
        Some((7, 7, 7)),
        ENDED,
        &[(1, (8, 8, 8)), (2, (0, 1, 5))],
    )?;
    let both = Marks {
        null: true,
        ended: true,
        unset: false,
    };
    let targets = [(1, (0, 8, 8)), (2, (0, 1, 5)), (3, (4, 4, 4))];
    let wanted = value(alloc, Some((3, 7, 7)), both, targets.as_slice())?;
    let joined = join_value(alloc, &left, &right)?;
    assert!(rt; is_same(&joined, &wanted));
    assert!(rt; is_same(&join_value(alloc, &right, &left)?, &wanted));
    assert!(rt; is_value_below(&left, &joined) && is_value_below(&right, &joined));
    assert!(rt; !is_value_below(&joined, &left) && !is_value_below(&left, &right));
    let nothing = value(alloc, None, NONE, &[])?;
    assert!(rt; is_same(&join_value(alloc, &left, &nothing)?, &left));
    Ok(())
}

#[test]
fn values_are_ordered_by_what_they_stand_for(rt: HostRuntime) -> Result<(), Fail> {
    let alloc = rt.alloc();
    let nothing = value(alloc, None, NONE, &[])?;
    let null = value(alloc, None, NULL, &[])?;
    let ended = value(alloc, None, ENDED, &[])?;
    let even = value(alloc, None, NONE, &[(4, (0, 2, 8))])?;
    let fourth = value(alloc, None, NONE, &[(4, (0, 4, 8))])?;
    let other = value(alloc, None, NONE, &[(2, (0, 2, 8)), (5, (0, 2, 8))])?;
    assert!(rt; is_nothing(&nothing) && is_value_below(&nothing, &null));
    assert!(rt; !is_nothing(&null) && !is_nothing(&even));
    assert!(rt; !is_value_below(&null, &ended) && !is_value_below(&ended, &null));
    assert!(rt; is_value_below(&fourth, &even) && !is_value_below(&even, &fourth));
    assert!(rt; !is_value_below(&fourth, &other) && !is_value_below(&other, &even));
    Ok(())
}

#[test]
fn truths_are_those_of_members_and_addresses(rt: HostRuntime) -> Result<(), Fail> {
    let alloc = rt.alloc();
    let target = [(1, (0, 4, 8))];
    let rows = [
        (value(alloc, None, NULL, &[])?, Some((0, 0, 0, 0))),
        (value(alloc, None, ENDED, &[])?, Some((1, 1, 0, 0))),
        (
            value(alloc, None, NULL, target.as_slice())?,
            Some((0, 1, 1, 0)),
        ),
        (
            value(alloc, None, NONE, target.as_slice())?,
            Some((1, 1, 0, 0)),
        ),
        (value(alloc, None, UNSET, &[])?, None),
        (
            value(alloc, Some((0, 2, 6)), NONE, &[])?,
            Some((0, 1, 1, 0)),
        ),
        (
            value(alloc, Some((2, 4, 6)), UNSET, &[])?,
            Some((1, 1, 0, 0)),
        ),
        (
            value(alloc, Some((0, 0, 0)), ENDED, &[])?,
            Some((0, 1, 1, 0)),
        ),
    ];
    for (v, wanted) in rows.iter() {
        let found = match truths(v) {
            None => None,
            Some(n) => Some(parts(&n)),
        };
        assert!(rt; found == *wanted, "{v:?}");
    }
    Ok(())
}

#[test]
fn pointers_are_refined_by_their_truth(rt: HostRuntime) -> Result<(), Fail> {
    let alloc = rt.alloc();
    let target = [(1, (0, 4, 8))];
    let mut v = value(alloc, None, ALL, target.as_slice())?;
    keep_pointer(&mut v, true);
    assert!(rt; is_same(&v, &value(alloc, None, ENDED, target.as_slice())?));
    keep_pointer(&mut v, false);
    assert!(rt; is_nothing(&v));
    let mut w = value(alloc, None, ALL, target.as_slice())?;
    keep_pointer(&mut w, false);
    assert!(rt; is_same(&w, &value(alloc, None, NULL, &[])?));
    Ok(())
}

#[test]
fn blocks_end_and_uses_leave_what_can_be_used(rt: HostRuntime) -> Result<(), Fail> {
    let alloc = rt.alloc();
    let mut v = value(alloc, None, NULL, &[(1, (0, 4, 8)), (2, (0, 0, 0))])?;
    end_block(&mut v, 3);
    assert!(rt;
        is_same(
            &v,
            &value(alloc, None, NULL, &[(1, (0, 4, 8)), (2, (0, 0, 0))])?
        )
    );
    end_block(&mut v, 1);
    let both = Marks {
        null: true,
        ended: true,
        unset: false,
    };
    assert!(rt; is_same(&v, &value(alloc, None, both, &[(2, (0, 0, 0))])?));
    assert!(rt; offsets_in(&v, 1) == None && offsets_in(&v, 2) == Some(number(0)));
    keep_usable(&mut v);
    assert!(rt; is_same(&v, &value(alloc, None, NULL, &[(2, (0, 0, 0))])?));
    assert!(rt;
        targets_from(vec![in alloc;
            Target {
                block: 2,
                at: number(0)
            },
            Target {
                block: 2,
                at: number(4)
            }
        ]?)
        .is_none()
    );
    Ok(())
}
