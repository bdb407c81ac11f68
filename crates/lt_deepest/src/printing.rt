//! Canonical texts of the deepest units without their marks.

use crate::nest::{Nest, parsed, text};
use lt_marks::{erase, max_id};
use lt_print::print_unit;
use std::alloc::Global;

/// The canonical text of a text's unit without its marks, which has to be printed as it stands when it is read again.
fn erased(alloc: Global, nest: &Nest) -> Option<Vec<u8>> {
    let text = text(alloc, nest).ok()?;
    let unit = parsed(alloc, text.as_slice())?.unit;
    let bare = erase(alloc, &unit).ok()?;
    if max_id(&bare) != 0 {
        return None;
    }
    let once = print_unit(alloc, &bare).ok()?;
    let again = parsed(alloc, once.as_slice())?.unit;
    let twice = print_unit(alloc, &again).ok()?;
    if once == twice { Some(once) } else { None }
}

const TEXTS: [(Nest, Nest); 4] = [
    (
        Nest(
            [
                "void f(int a) { ",
                "- ",
                "pc_decide(a, 2, 9, \"d\")",
                "",
                "; }",
            ],
            997,
        ),
        Nest(["void f(int a) {\n  ", "- ", "-a", "", ";\n}\n"], 996),
    ),
    (
        Nest(["int x = ", "a - (", "a", ")", ";"], 499),
        Nest(["int x = ", "a - (", "a - a", ")", ";\n"], 498),
    ),
    (
        Nest(["int x = ", "~", "a", "", ";"], 999),
        Nest(["int x = ", "~", "a", "", ";\n"], 999),
    ),
    (
        Nest(["int x = ", "sizeof(int[", "1", "])", ";"], 333),
        Nest(["int x = ", "sizeof(int [", "1", "])", ";\n"], 333),
    ),
];

#[test]
fn the_deepest_operands_are_printed(rt: HostRuntime) {
    let alloc = rt.alloc();
    for (nest, canonical) in TEXTS {
        let wanted = text(alloc, &canonical).expect(&rt, "memory");
        match erased(alloc, &nest) {
            Some(came) => assert!(rt; came == wanted, "the canonical text"),
            None => panic!(rt; "a text"),
        }
    }
}

// With how many bytes the canonical text has.
const LENGTHS: [(Nest, usize); 2] = [
    (Nest(["void f(void) {", "{", "", "}", "}"], 998), 1998013),
    (
        Nest(["void f(int a) {", "if (a) ", ";", "", "}"], 499),
        254013,
    ),
];

#[test]
fn the_deepest_statements_are_printed(rt: HostRuntime) {
    let alloc = rt.alloc();
    for (nest, length) in LENGTHS {
        match erased(alloc, &nest) {
            Some(came) => assert_eq!(rt; came.len(), length),
            None => panic!(rt; "a text"),
        }
    }
}
