use crate::commands::Command;
use crate::stops::PlanStop;
use crate::words::plan;
use bitflags::Flags;
use std::alloc::{AllocError, Global};
use std::test::Fail;

// The words of a line, with one space between two.
fn words_of(alloc: Global, line: &str) -> Result<Vec<String>, AllocError> {
    let mut words = Vec::new(alloc);
    for word in line.split(' ') {
        words.push(String::from_str(alloc, word)?)?;
    }
    Ok(words)
}

// What comes, as a line: the names and the model of a replay, its steps, and a dash for a file that isn't named; or the bits of the criteria.
fn shown(alloc: Global, answer: &Result<Command<'_>, PlanStop>) -> Result<String, AllocError> {
    match answer {
        Ok(Command::Replay(replay)) => format!(in alloc;
            "replay {} {} {} {:?} {} {}",
            replay.file,
            replay.suite,
            replay.entry.unwrap_or("-"),
            replay.model,
            replay.steps,
            replay.cover.unwrap_or("-")
        ),
        Ok(Command::Convert(file)) => format!(in alloc; "convert {file}"),
        Ok(Command::Annotate(annotate)) => format!(in alloc;
            "annotate {} {} {:?}",
            annotate.file,
            annotate.criteria.bits(),
            annotate.model
        ),
        Err(PlanStop::Usage) => format!(in alloc; "usage"),
        Err(PlanStop::NoMemory) => format!(in alloc; "out of memory"),
    }
}

// Lines of words, and what comes.
static ROWS: [(&str, &str); 49] = [
    ("replay a b", "replay a b - Lp64 100000 -"),
    (
        "replay --steps 5 a --entry e b --cover=old",
        "replay a b e Lp64 5 old",
    ),
    ("replay a b --entry=e=f", "replay a b e=f Lp64 100000 -"),
    ("replay x=y b", "replay x=y b - Lp64 100000 -"),
    ("replay a --model ilp32 b", "replay a b - Ilp32 100000 -"),
    ("replay --model=llp64 a b", "replay a b - Llp64 100000 -"),
    ("replay a b --char signed", "replay a b - Lp64 100000 -"),
    (
        "replay a b --char unsigned --model llp64",
        "replay a b - Llp64U 100000 -",
    ),
    (
        "replay a b --char=unsigned --model=ilp32",
        "replay a b - Ilp32U 100000 -",
    ),
    ("replay a b --char=unsigned", "replay a b - Lp64U 100000 -"),
    (
        "replay a b --steps 10000000",
        "replay a b - Lp64 10000000 -",
    ),
    ("replay a b --steps=1", "replay a b - Lp64 1 -"),
    ("replay a b --steps=0", "usage"),
    ("replay a b --steps 5 --steps 5", "usage"),
    ("replay a b --steps 5 --steps=5", "usage"),
    ("replay a b --steps 05", "usage"),
    ("replay a b --steps 10000001", "usage"),
    ("replay a b --steps +5", "usage"),
    ("replay a b --steps -5", "usage"),
    ("replay a b --steps=", "usage"),
    ("replay a b --steps", "usage"),
    ("replay a b --entry --cover", "usage"),
    ("replay a b --model=lp32", "usage"),
    ("replay a b --char", "usage"),
    ("replay a", "usage"),
    ("replay a b c", "usage"),
    ("replay a ", "usage"),
    ("replay a -- b", "usage"),
    ("replay a b -x", "usage"),
    ("convert a", "convert a"),
    ("convert a b", "usage"),
    ("convert a --model lp64", "usage"),
    ("--help", "usage"),
    (
        "annotate a --criteria FC,IDC,DC,CC,MCC,GACC,ABS,AOR,COR,ROR",
        "annotate a 7743 Lp64",
    ),
    (
        "annotate --model=llp64 --criteria=ROR,FC --char unsigned a",
        "annotate a 4097 Llp64U",
    ),
    ("annotate a", "usage"),
    ("annotate a --criteria", "usage"),
    ("annotate a --criteria DC --criteria CC", "usage"),
    ("annotate a --criteria DC,CC,DC", "usage"),
    ("annotate a --criteria DC,,CC", "usage"),
    ("annotate a --criteria DC,", "usage"),
    ("annotate a --criteria dc", "usage"),
    ("annotate a --criteria CACC", "usage"),
    ("annotate a --criteria DC,RACC", "usage"),
    ("annotate a --criteria AU", "usage"),
    ("annotate a b --criteria DC", "usage"),
    ("annotate a --criteria DC --steps 5", "usage"),
    ("annotate a --criteria DC --hyper", "usage"),
    ("replay a b --criteria DC", "usage"),
];

#[test]
fn words_ask_for_commands(rt: HostRuntime) -> Result<(), Fail> {
    let alloc = rt.alloc();
    for (line, want) in &ROWS {
        let words = words_of(alloc, line)?;
        let answer = plan(alloc, words.as_slice());
        assert_eq!(rt; shown(alloc, &answer)?.as_str(), *want, "at {line}");
    }
    assert!(rt; matches!(plan(alloc, &[]), Err(PlanStop::Usage)));
    Ok(())
}
