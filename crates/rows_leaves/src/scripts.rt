//! Which lines are kept, removed and added, and how they are printed.
use crate::script_rows::{Row, prints};
use std::test::Fail;

static KEPT: [Row; 9] = [
    Row {
        left: "",
        right: "",
        context: 0,
        color: false,
        printed: "",
    },
    Row {
        left: "a\nb\n",
        right: "a\nb\n",
        context: 3,
        color: false,
        printed: "",
    },
    Row {
        left: "a\nb\nc\n",
        right: "a\nx\nc\n",
        context: 0,
        color: false,
        printed: "\t-b\n\t+x\n",
    },
    Row {
        left: "a\nb\n",
        right: "new\na\nb\n",
        context: 0,
        color: false,
        printed: "\t+new\n",
    },
    Row {
        left: "a\nb\nc\n",
        right: "c\n",
        context: 0,
        color: false,
        printed: "\t-a\n\t-b\n",
    },
    // A line that comes twice is kept where others around it are.
    Row {
        left: "a\n}\nb\n}\nc\n",
        right: "new\n}\na\n}\nb\n}\nc\n",
        context: 0,
        color: false,
        printed: "\t+new\n\t+}\n",
    },
    // A line that moved is removed in one place and added in the other.
    Row {
        left: "a\nb\nc\nd\n",
        right: "b\nc\nd\na\n",
        context: 0,
        color: false,
        printed: "\t-a\n\t...\n\t+a\n",
    },
    Row {
        left: "a\r\nb\n",
        right: "a\nb\n",
        context: 0,
        color: false,
        printed: "\t-a\\x0D\n\t+a\n",
    },
    Row {
        left: "a",
        right: "",
        context: 0,
        color: false,
        printed: "\t-a\n\t\\ no line feed at the end\n",
    },
];

#[test]
fn lines_that_both_texts_have_are_kept(rt: HostRuntime) -> Result<(), Fail> {
    for row in &KEPT {
        prints(&rt, row)?;
    }
    Ok(())
}

static PRINTED: [Row; 8] = [
    Row {
        left: "a\nb\nc\nd\ne\n",
        right: "a\nb\nx\nd\ne\n",
        context: 1,
        color: false,
        printed: "\t b\n\t-c\n\t+x\n\t d\n",
    },
    // Two changes whose lines around meet have no `...` between them.
    Row {
        left: "a\nb\nc\nd\ne\n",
        right: "x\nb\nc\nd\ny\n",
        context: 2,
        color: false,
        printed: "\t-a\n\t+x\n\t b\n\t c\n\t d\n\t-e\n\t+y\n",
    },
    Row {
        left: "a\nb\nc\nd\ne\n",
        right: "x\nb\nc\nd\ny\n",
        context: 1,
        color: false,
        printed: "\t-a\n\t+x\n\t b\n\t...\n\t d\n\t-e\n\t+y\n",
    },
    Row {
        left: "a b\n",
        right: "a b  \n",
        context: 0,
        color: false,
        printed: "\t-a b\n\t+a b\\x20\\x20\n",
    },
    Row {
        left: "\ta\\b\u{7}\u{85}\n",
        right: "\n",
        context: 0,
        color: false,
        printed: "\t-\\ta\\\\b\\x07\\x85\n\t+\n",
    },
    Row {
        left: "a",
        right: "a\n",
        context: 0,
        color: false,
        printed: "\t-a\n\t\\ no line feed at the end\n\t+a\n",
    },
    Row {
        left: "é\n",
        right: "€\n",
        context: 0,
        color: false,
        printed: "\t-é\n\t+€\n",
    },
    Row {
        left: "k\na\n",
        right: "k\nb\n",
        context: 1,
        color: true,
        printed: "\t k\u{1b}[0m\n\t\u{1b}[31m-a\u{1b}[0m\n\t\u{1b}[32m+b\u{1b}[0m\n",
    },
];

#[test]
fn changes_are_printed(rt: HostRuntime) -> Result<(), Fail> {
    for row in &PRINTED {
        prints(&rt, row)?;
    }
    Ok(())
}
