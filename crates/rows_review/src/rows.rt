//! Runs over files of which an open fails, and over streams that take no more.
use crate::runs::{ALL, Given, run};
use std::process::Abort;
use std::test::Fail;

/// Words, a standard input, how many bytes standard output and standard error take, and what the run answers and writes.
struct Row {
    name: &'static str,
    words: &'static [&'static str],
    input: &'static [u8],
    rooms: (usize, usize),
    status: u8,
    out: &'static str,
    err: &'static str,
}

static ROWS: [Row; 6] = [
    Row {
        name: "a path through a file, and a reason that has no words of its own",
        words: &["faults", "one.yaml/a", "folder"],
        input: b"",
        rooms: ALL,
        status: 3,
        out: "",
        err: "yamlreview: one.yaml/a: cannot open: a part of its path is not a folder\nyamlreview: folder: cannot open: the system refused\n",
    },
    Row {
        name: "what is no regular file is told so",
        words: &["sum", "folder", "one.yaml"],
        input: b"",
        rooms: ALL,
        status: 3,
        out: "10fefbc4a80af0c4ff6ee9763b1d134ced76a83604f31803c082d5bfcc96318a  one.yaml\n",
        err: "yamlreview: folder: is no regular file\n",
    },
    Row {
        name: "a folder, and a file without permission",
        words: &["diff", "a folder", "denied"],
        input: b"",
        rooms: ALL,
        status: 3,
        out: "",
        err: "yamlreview: a folder: cannot open: it is a folder\nyamlreview: denied: cannot open: permission denied\n",
    },
    Row {
        name: "and no others",
        words: &["sum", "--check", "-", "--ignore-missing"],
        input: b"82ae564fde271dd8a546cae079eba99e0c49b73b9e767ef20f8bbea26c2ae94d  absent\n10fefbc4a80af0c4ff6ee9763b1d134ced76a83604f31803c082d5bfcc96318a  one.yaml\n82ae564fde271dd8a546cae079eba99e0c49b73b9e767ef20f8bbea26c2ae94d  denied\n",
        rooms: ALL,
        status: 3,
        out: "one.yaml: OK\ndenied: FAILED open or read\n",
        err: "yamlreview: denied: cannot open: permission denied\nyamlreview: files without a sum: 1\n",
    },
    Row {
        name: "a writer that fails ends the run behind a beginning",
        words: &["sum", "one.yaml", "absent", "flow.yaml"],
        input: b"",
        rooms: (80, usize::MAX),
        status: 3,
        out: "10fefbc4a80af0c4ff6ee9763b1d134ced76a83604f31803c082d5bfcc96318a  one.yaml\n82ae5",
        err: "yamlreview: absent: cannot open: not found\nyamlreview: 23 WriteFault\n",
    },
    Row {
        name: "a standard error that fails changes no sum",
        words: &["sum", "absent", "one.yaml"],
        input: b"",
        rooms: (usize::MAX, 7),
        status: 3,
        out: "10fefbc4a80af0c4ff6ee9763b1d134ced76a83604f31803c082d5bfcc96318a  one.yaml\n",
        err: "yamlrev",
    },
];

fn is_told<T: Abort + AllocGlobal>(rt: &T, row: &Row) -> Result<(), Fail> {
    let given = Given {
        words: row.words,
        input: row.input,
        rooms: row.rooms,
    };
    let ran = run(rt.alloc(), given)?;
    ran.gave(rt, row.name, row.status, row.out, row.err);
    Ok(())
}

#[test]
fn files_and_streams_that_fail_are_told(rt: HostRuntime) -> Result<(), Fail> {
    for row in &ROWS {
        is_told(&rt, row)?;
    }
    Ok(())
}
