//! The names of the tests that cover a label in either of two tables.

ghost use Rattle.std.specs.Prelude.{◌≡◌, ◌↔◌, ◌⊎◌, ◌∷◌, ◌++◌, [], List, ℕ, IfOk, OnOk, Contains};
ghost use Rattle.lt_cover.specs.Coverage.Table.{NamesRise};

use lt_model::Name;
use std::alloc::{AllocError, Global};
use std::cmp::Ordering;

fn add_name(alloc: Global, names: &mut Vec<Name>, name: &Name) -> Result<(), AllocError>
    ensures { OnOk result (names.new.items ≡ names.old.items ++ name.now ∷ []) }
{
    names.push(Name::new(alloc, name.as_slice())?)?;
    Ok(())
}

fn add_names(alloc: Global, names: &mut Vec<Name>, more: &[Name]) -> Result<(), AllocError>
    ensures { OnOk result (names.new.items ≡ names.old.items ++ more.now) }
{
    for name in more {
        add_name(alloc, names, name)?;
    }
    Ok(())
}

/// The names of either list, in byte order, by a walk along both.
pub fn names_of_either(alloc: Global, a: &[Name], b: &[Name]) -> Result<Vec<Name>, AllocError>
    requires first { NamesRise a.now }
    requires second { NamesRise b.now }
    ensures rise { IfOk result (λ v. NamesRise v.items) }
    ensures names { IfOk result (λ v. (name : List ℕ) → Contains v.items name ↔ (Contains a.now name ⊎ Contains b.now name)) }
{
    let mut names = Vec::new(alloc);
    let mut left = a;
    let mut right = b;
    'walk: while let Some((x, more)) = left.split_first() {
        let Some((y, rest)) = right.split_first() else {
            add_name(alloc, &mut names, x)?;
            left = more;
            continue;
        };
        match x.as_slice().cmp(y.as_slice()) {
            Ordering::Less => {
                add_name(alloc, &mut names, x)?;
                left = more;
            }
            Ordering::Equal => {
                add_name(alloc, &mut names, x)?;
                left = more;
                right = rest;
            }
            Ordering::Greater => {
                add_name(alloc, &mut names, y)?;
                right = rest;
            }
        }
    }
    add_names(alloc, &mut names, right)?;
    Ok(names)
}
