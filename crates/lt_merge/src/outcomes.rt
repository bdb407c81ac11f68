//! The tests of either of two tables.

ghost use Rattle.std.specs.Prelude.{◌≡◌, ◌↔◌, ◌⊎◌, ◌∷◌, ◌++◌, [], IsTrue, IfOk, IfErr, OnOk, Contains};
ghost use Rattle.lt_model.specs.declared.run.End.TheVariants.{NoInput};
ghost use Rattle.lt_cover.specs.declared.rows.TestRow.{TestRow};
ghost use Rattle.lt_cover.specs.Coverage.Table.{NamesRise, names_of};
ghost use Rattle.lt_merge.specs.Keys.{IsTestsStop};

use lt_cover::{MergeStop, TestEnd, TestRow, end_word};
use lt_model::{End, Name};
use std::alloc::{AllocError, Global};
use std::cmp::Ordering;

// Whether two tests are over in the same way; two ends with the same word are the same.
fn is_same_end(alloc: Global, a: &TestEnd, b: &TestEnd) -> Result<bool, AllocError>
    ensures { IfOk result (λ same. IsTrue same ↔ (a.now ≡ b.now)) }
{
    let left = end_word(alloc, a)?;
    let right = end_word(alloc, b)?;
    Ok(left.as_slice() == right.as_slice())
}

fn without_input(alloc: Global, stub: &Name) -> Result<End, AllocError>
    ensures { IfOk result (λ end. end ≡ NoInput stub.now) }
{
    let name = Name::new(alloc, stub.as_slice())?;
    Ok(End::NoInput(name))
}

fn copied_run(alloc: Global, end: &End) -> Result<End, AllocError>
    ensures { IfOk result (λ copy. copy ≡ end.now) }
{
    match end {
        End::Returned => Ok(End::Returned),
        End::Stopped => Ok(End::Stopped),
        End::Undefined(kind) => Ok(End::Undefined(*kind)),
        End::NoInput(stub) => without_input(alloc, stub),
        End::Steps => Ok(End::Steps),
        End::Deep => Ok(End::Deep),
        End::Cells => Ok(End::Cells),
    }
}

fn copied_end(alloc: Global, end: &TestEnd) -> Result<TestEnd, AllocError>
    ensures { IfOk result (λ copy. copy ≡ end.now) }
{
    Ok(match end {
        TestEnd::Ran(end) => TestEnd::Ran(copied_run(alloc, end)?),
        TestEnd::Outside => TestEnd::Outside,
    })
}

fn add_test(alloc: Global, tests: &mut Vec<TestRow>, test: &TestRow) -> Result<(), AllocError>
    ensures { OnOk result (tests.new.items ≡ tests.old.items ++ test.now ∷ []) }
{
    let name = Name::new(alloc, test.name.as_slice())?;
    let end = copied_end(alloc, &test.end)?;
    tests.push(TestRow { name, end })?;
    Ok(())
}

fn add_tests(alloc: Global, tests: &mut Vec<TestRow>, more: &[TestRow]) -> Result<(), AllocError>
    ensures { OnOk result (tests.new.items ≡ tests.old.items ++ more.now) }
{
    for test in more {
        add_test(alloc, tests, test)?;
    }
    Ok(())
}

/// The tests of either list, in byte order of their names, by a walk along both; or the least name that they have with two ends.
pub fn tests_of_either(
    alloc: Global,
    a: &[TestRow],
    b: &[TestRow],
) -> Result<Vec<TestRow>, MergeStop>
    requires first { NamesRise (names_of a.now) }
    requires second { NamesRise (names_of b.now) }
    ensures rise { IfOk result (λ v. NamesRise (names_of v.items)) }
    ensures tests { IfOk result (λ v. (x : TestRow) → Contains v.items x ↔ (Contains a.now x ⊎ Contains b.now x)) }
    ensures stops { IfErr result (IsTestsStop a.now b.now) }
{
    let mut tests = Vec::new(alloc);
    let mut left = a;
    let mut right = b;
    'walk: while let Some((x, more)) = left.split_first() {
        let Some((y, rest)) = right.split_first() else {
            add_test(alloc, &mut tests, x)?;
            left = more;
            continue;
        };
        match x.name.as_slice().cmp(y.name.as_slice()) {
            Ordering::Less => {
                add_test(alloc, &mut tests, x)?;
                left = more;
            }
            Ordering::Equal => {
                if !is_same_end(alloc, &x.end, &y.end)? {
                    return Err(MergeStop::Test(Name::new(alloc, x.name.as_slice())?));
                }
                add_test(alloc, &mut tests, x)?;
                left = more;
                right = rest;
            }
            Ordering::Greater => {
                add_test(alloc, &mut tests, y)?;
                right = rest;
            }
        }
    }
    add_tests(alloc, &mut tests, right)?;
    Ok(tests)
}
