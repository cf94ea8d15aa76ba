//! Runs whose streams fail or give too much.
use crate::fakes::{Broken, NONE, Narrow, Source};
use crate::files::Listed;
use crate::runs::{Ran, owned};
use std::process::Abort;
use std::test::Fail;
use yaml_command::command::command_over;

/// Words and a standard input; the call of standard output that goes wrong, and how, and the call of
/// standard error that fails, counted from 1; and what the run answers and writes.
struct Row {
    name: &'static str,
    words: &'static [&'static str],
    input: Source<'static>,
    bad: u32,
    how: Broken,
    bad_err: u32,
    status: u8,
    out: &'static str,
    err: &'static str,
}

/// Ten bytes.
const SHORT: Source<'static> = Source {
    bytes: b"--- [\"x\"]\n",
    ..NONE
};

const CANON: Row = Row {
    name: "nothing fails",
    words: &["canon"],
    input: SHORT,
    bad: 0,
    how: Broken::Fails,
    bad_err: 0,
    status: 0,
    out: "--- [\"x\"]\n",
    err: "",
};

/// Zero bytes: as many as a text may have, one more, and without end.
static LONG: [Row; 3] = [
    Row {
        name: "as many as may be",
        input: Source {
            zeros: 67_108_864,
            ..NONE
        },
        status: 2,
        out: "",
        err: "yaml: 3 NotPrintable at byte 0\n",
        ..CANON
    },
    Row {
        name: "one more",
        input: Source {
            zeros: 67_108_865,
            ..NONE
        },
        status: 2,
        out: "",
        err: "yaml: 1 TooLong\n",
        ..CANON
    },
    Row {
        name: "without end",
        input: Source {
            zeros: u64::MAX,
            ..NONE
        },
        status: 2,
        out: "",
        err: "yaml: 1 TooLong\n",
        ..CANON
    },
];

const READ: Row = Row {
    status: 3,
    out: "",
    err: "yaml: 22 ReadFault\n",
    ..CANON
};

/// Ten bytes at two a call, and the end: six reads.
const BY_TWO: Source<'static> = Source { step: 2, ..SHORT };

static READS: [Row; 7] = [
    Row {
        name: "read 1 fails",
        input: Source { bad: 1, ..BY_TWO },
        ..READ
    },
    Row {
        name: "read 2 fails",
        input: Source { bad: 2, ..BY_TWO },
        ..READ
    },
    Row {
        name: "read 3 fails",
        input: Source { bad: 3, ..BY_TWO },
        ..READ
    },
    Row {
        name: "read 4 fails",
        input: Source { bad: 4, ..BY_TWO },
        ..READ
    },
    Row {
        name: "read 5 fails",
        input: Source { bad: 5, ..BY_TWO },
        ..READ
    },
    Row {
        name: "read 6 fails",
        input: Source { bad: 6, ..BY_TWO },
        ..READ
    },
    Row {
        name: "read 7 would fail",
        input: Source { bad: 7, ..BY_TWO },
        ..CANON
    },
];

const WRITE: Row = Row {
    status: 3,
    err: "yaml: 23 WriteFault\n",
    ..CANON
};

const SAME: Row = Row {
    words: &["same", "a.yaml", "b.yaml"],
    ..WRITE
};

/// Ten bytes at three a call, and the flush: five calls. A failing write of `same`, which has five
/// bytes, names no side. A status stands where standard error fails.
static WRITES: [Row; 12] = [
    Row {
        name: "call 1 fails",
        bad: 1,
        out: "",
        ..WRITE
    },
    Row {
        name: "call 2 fails",
        bad: 2,
        out: "---",
        ..WRITE
    },
    Row {
        name: "call 3 fails",
        bad: 3,
        out: "--- [\"",
        ..WRITE
    },
    Row {
        name: "call 4 fails",
        bad: 4,
        out: "--- [\"x\"]",
        ..WRITE
    },
    Row {
        name: "call 5 fails",
        bad: 5,
        out: "--- [\"x\"]\n",
        ..WRITE
    },
    Row {
        name: "call 6 would fail",
        bad: 6,
        ..CANON
    },
    Row {
        name: "call 1 takes nothing",
        bad: 1,
        how: Broken::TakesNothing,
        out: "",
        ..WRITE
    },
    Row {
        name: "call 3 takes nothing",
        bad: 3,
        how: Broken::TakesNothing,
        out: "--- [\"",
        ..WRITE
    },
    Row {
        name: "call 1 of same fails",
        bad: 1,
        out: "",
        ..SAME
    },
    Row {
        name: "call 2 of same fails",
        bad: 2,
        out: "sam",
        ..SAME
    },
    Row {
        name: "call 3 of same fails",
        bad: 3,
        out: "same\n",
        ..SAME
    },
    Row {
        name: "standard error fails",
        words: &[],
        bad_err: 1,
        out: "",
        err: "",
        ..WRITE
    },
];

/// An input of which no call succeeds.
const UNREAD: Source<'static> = Source {
    bytes: b"x",
    bad: 1,
    ..NONE
};

/// Standard input is not read where a file is named.
static NAMED: [Row; 4] = [
    Row {
        name: "standard input and canon",
        words: &["canon", "a.yaml"],
        input: UNREAD,
        out: "--- [\"a\", \"b\"]\n",
        ..CANON
    },
    Row {
        name: "standard input and events",
        words: &["events", "a.yaml"],
        input: UNREAD,
        out: "+STR\n+DOC ---\n+SEQ []\n=VAL \"a\n=VAL \"b\n-SEQ\n-DOC\n-STR\n",
        ..CANON
    },
    Row {
        name: "standard input and same",
        words: &["same", "a.yaml", "b.yaml"],
        input: UNREAD,
        out: "same\n",
        ..CANON
    },
    Row {
        name: "standard input and check",
        words: &["check", "a.yaml", "a.events"],
        input: UNREAD,
        out: "match\n",
        ..CANON
    },
];

/// Files of which a read fails: each file is read whole before either is judged, and no line names a file that is read.
static FILES: [Row; 7] = [
    Row {
        name: "same of failing.yaml and missing.yaml",
        words: &["same", "failing.yaml", "missing.yaml"],
        err: "yaml: left: 22 ReadFault\n",
        ..READ
    },
    Row {
        name: "same of bad.yaml and failing.yaml",
        words: &["same", "bad.yaml", "failing.yaml"],
        err: "yaml: right: 22 ReadFault\n",
        ..READ
    },
    Row {
        name: "same of missing.yaml and failing.yaml",
        words: &["same", "missing.yaml", "failing.yaml"],
        err: "yaml: cannot open missing.yaml\n",
        ..READ
    },
    Row {
        name: "events of failing.yaml",
        words: &["events", "failing.yaml"],
        err: "yaml: 22 ReadFault\n",
        ..READ
    },
    Row {
        name: "check of open.yaml and failing.yaml",
        words: &["check", "open.yaml", "failing.yaml"],
        err: "yaml: events: 22 ReadFault\n",
        ..READ
    },
    Row {
        name: "check of failing.yaml and missing.yaml",
        words: &["check", "failing.yaml", "missing.yaml"],
        err: "yaml: 22 ReadFault\n",
        ..READ
    },
    Row {
        name: "check of missing.yaml and failing.yaml",
        words: &["check", "missing.yaml", "failing.yaml"],
        err: "yaml: cannot open missing.yaml\n",
        ..READ
    },
];

fn is_told<T: Abort + AllocGlobal>(rt: &T, row: &Row) -> Result<(), Fail> {
    let alloc = rt.alloc();
    let words = owned(alloc, row.words)?;
    let mut out = Vec::new(alloc);
    let mut err = Vec::new(alloc);
    let status = command_over(
        &Listed,
        alloc,
        words.as_slice(),
        row.input,
        Narrow::new(&mut out, row.bad, row.how),
        Narrow::new(&mut err, row.bad_err, Broken::Fails),
    );
    let ran = Ran::new(status, out, err)?;
    ran.gave(rt, row.words, row.name, row.status, row.out, row.err);
    Ok(())
}

#[test]
fn streams_that_fail_or_give_too_much_are_told(rt: HostRuntime) -> Result<(), Fail> {
    let tables: [&[Row]; 5] = [&LONG, &READS, &WRITES, &NAMED, &FILES];
    for table in &tables {
        for row in *table {
            is_told(&rt, row)?;
        }
    }
    Ok(())
}
