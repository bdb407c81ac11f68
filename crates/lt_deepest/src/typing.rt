//! Which rule of typing the deepest units break.

use crate::nest::{Nest, parsed, text};
use lt_model::DataModel;
use lt_type::TypeStop;
use lt_unit::elaborate;
use std::alloc::Global;

// The number of the rule, 0 where none is broken.
fn rule(alloc: Global, nest: &Nest) -> Option<u8> {
    let text = text(alloc, nest).ok()?;
    let unit = parsed(alloc, text.as_slice())?.unit;
    match elaborate(alloc, &unit, DataModel::Lp64) {
        Ok(_) => Some(0),
        Err(TypeStop::Broken(rule, _)) => Some(rule.number()),
        Err(TypeStop::NoMemory) => None,
    }
}

const RULES: [(Nest, u8); 22] = [
    (
        Nest(
            [
                "void f(int a) { ",
                "pc_label(a, 1, \"A\"), ",
                "a",
                "",
                "; }",
            ],
            1023,
        ),
        30,
    ),
    (Nest(["void f(void) { ", "{", "", "}", " }"], 998), 0),
    (
        Nest(
            ["void f(int a) { ", "if (a) ; else ", "if (a) ;", "", " }"],
            332,
        ),
        0,
    ),
    (Nest(["void f(int a) { ", "if (a) ", ";", "", " }"], 499), 0),
    (
        Nest(["void f(int a) { ", "do ", ";", " while (a);", " }"], 998),
        0,
    ),
    (
        Nest(["void f(int a) { ", "while (a) ", ";", "", " }"], 499),
        0,
    ),
    (
        Nest(["void f(int a) { ", "for (;;) ", ";", "", " }"], 499),
        0,
    ),
    (
        Nest(
            ["void f(int a) { ", "switch (a) { case 1: ", ";", "}", " }"],
            249,
        ),
        0,
    ),
    (Nest(["int ", "*", "x", "", ";"], 1000), 0),
    (Nest(["int x = ", "{", "1", "}", ";"], 999), 28),
    (Nest(["int a", "[1]", " = {1};", "", ""], 998), 0),
    (Nest(["int f(", "int (*)(", "int", ")", ");"], 499), 0),
    (
        Nest(
            [
                "typedef int T; void f(void) { ",
                "{ typedef T **********T; ",
                "T x; x = x;",
                " }",
                " }",
            ],
            988,
        ),
        0,
    ),
    (
        Nest(
            ["int g(int); int f(int x) { return ", "!", "x", "", "; }"],
            998,
        ),
        0,
    ),
    (
        Nest(
            ["int g(int); int f(int x) { return ", "g(", "x", ")", "; }"],
            998,
        ),
        0,
    ),
    (
        Nest(["int f(int *a) { return ", "a[", "0", "]", "; }"], 998),
        0,
    ),
    (
        Nest(["int f(int x) { return ", "x + ", "x", "", "; }"], 998),
        0,
    ),
    (
        Nest(["int f(int x) { return ", "x ? x : ", "x", "", "; }"], 499),
        0,
    ),
    (
        Nest(["int f(int x) { return ", "(x, ", "x", ")", "; }"], 998),
        0,
    ),
    (
        Nest(
            [
                "int f(int x) { return ",
                "(int)sizeof(int[",
                "1",
                "])",
                "; }",
            ],
            249,
        ),
        6,
    ),
    (
        Nest(
            [
                "int f(int x) { return ",
                "sizeof(struct { int m[",
                "1",
                "]; })",
                "; }",
            ],
            249,
        ),
        6,
    ),
    (
        Nest(
            [
                "int f(int x) { return ",
                "(pc_label(",
                "x",
                ", 1, \"A\"), x)",
                "; }",
            ],
            499,
        ),
        30,
    ),
];

#[test]
fn the_deepest_units_are_typed(rt: HostRuntime) {
    let alloc = rt.alloc();
    for (nest, broken) in RULES {
        match rule(alloc, &nest) {
            Some(rule) => assert_eq!(rt; rule, broken),
            None => panic!(rt; "a rule"),
        }
    }
}
