//! How many nodes the deepest units have.

use crate::nest::{Nest, parsed, text};

const NODES: [(Nest, usize); 7] = [
    (Nest(["void f(void) { ", "{", "", "}", " }"], 998), 1998),
    (
        Nest(
            ["void f(int a) { ", "if (a) ; else ", "if (a) ;", "", " }"],
            332,
        ),
        1003,
    ),
    (
        Nest(["void f(int a) { ", "if (a) ", ";", "", " }"], 499),
        1003,
    ),
    (
        Nest(["void f(int a) { ", "do ", ";", " while (a);", " }"], 998),
        2001,
    ),
    (Nest(["int ", "(", "x", ")", ";"], 1000), 2),
    (Nest(["int ", "*", "x", "", ";"], 1000), 2),
    (Nest(["int x = ", "{", "1", "}", ";"], 999), 1003),
];

#[test]
fn the_deepest_texts_are_units(rt: HostRuntime) {
    let alloc = rt.alloc();
    for (nest, nodes) in NODES {
        let text = text(alloc, &nest).expect(&rt, "memory");
        match parsed(alloc, text.as_slice()) {
            Some(unit) => assert_eq!(rt; unit.spots.len(), nodes),
            None => panic!(rt; "a unit"),
        }
    }
}
