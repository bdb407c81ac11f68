use crate::greatest_nest;
use std::alloc::{AllocError, Global};
use std::test::Fail;
use std::vec::Vec;

// Counted by hand.
const ROWS: [(&str, Option<u64>); 42] = [
    ("", Some(0)),
    ("x;", Some(0)),
    ("((x))", Some(2)),
    ("(", Some(1)),
    (")", Some(1)),
    ("a[b][c]", Some(2)),
    ("a + b + c", Some(2)),
    ("a = b + c; d = e;", Some(2)),
    ("f(-a, -b)", Some(2)),
    ("f(int, ...)", Some(1)),
    ("sizeof x", Some(1)),
    ("{ { } } { }", Some(2)),
    ("{ a = b; }", Some(2)),
    ("if (a) x;", Some(2)),
    ("if (a) x; else y; z = 1;", Some(3)),
    ("if (a) x; else if (b) y; else if (c) z;", Some(8)),
    ("if (a) { } else { }", Some(4)),
    ("if (a) { } elsewhere = { }", Some(3)),
    ("-a /* - - - */", Some(1)),
    ("-a // - - -", Some(1)),
    ("\"- - -\" - '-'", Some(1)),
    ("# 1 \"a.c\"\n-a", Some(1)),
    ("__extension__ -a", Some(1)),
    ("__attribute__((- - -)) -a", Some(1)),
    ("__attribute__((@)) -a", Some(1)),
    ("__attribute__() __attribute__((a)(b)) (((c)))", Some(3)),
    ("f() asm(\"a\") asm(\"b\");", Some(1)),
    ("__attribute__", None),
    ("__attribute__ a", None),
    ("__attribute__)", None),
    ("__attribute__((a)", None),
    ("__attribute__ __attribute__(a)", None),
    ("asm(\"a\");", None),
    ("a /* b", None),
    ("\"a", None),
    ("'ab'", None),
    ("08", None),
    ("1.5", None),
    ("L\"a\"", None),
    ("@", None),
    ("#define a", None),
    ("x; goto y;", None),
];

fn repeated(alloc: Global, text: &[u8], times: u64) -> Result<Vec<u8>, AllocError> {
    let mut all = Vec::new(alloc);
    for _ in 0..times {
        all.extend_from_slice(text)?;
    }
    Ok(all)
}

#[test]
fn texts_nest_as_counted(rt: HostRuntime) -> Result<(), Fail> {
    let alloc = rt.alloc();
    for (text, nest) in &ROWS {
        assert_eq!(rt; greatest_nest(alloc, text.as_bytes())?, *nest, "at {text}");
    }
    for (part, nest) in &[("(", 5000), ("{ - ", 10000), ("a - ", 5000), ("a; ", 0)] {
        let text = repeated(alloc, part.as_bytes(), 5000)?;
        assert_eq!(rt;
            greatest_nest(alloc, text.as_slice())?,
            Some(*nest),
            "at many {part}"
        );
    }
    Ok(())
}
