//! Streams that are high or long.
use crate::answers::{Shown, gives};
use std::alloc::Global;
use std::fmt::Write;
use std::test::Fail;

/// Pieces of words, each so many times, in which `#` is the number of the piece, counted from 0; and what
/// is shown.
struct Row {
    shows: &'static str,
    pieces: &'static [(usize, &'static str)],
    what: Shown,
    gives: &'static str,
}

/// The beginning of a document, and two lines more, each of which holds the one before it twice.
const DOUBLE: (usize, &str) = (1, "--- [ &a [ x x ] &b [ *a *a ]");

const TWO_LINES: &str = " &a [ *b *b ] &b [ *a *a ]";

static ROWS: [Row; 8] = [
    Row {
        shows: "a chain of 1,023 sequences around a scalar",
        pieces: &[
            (1, "---"),
            (1_023, " ["),
            (1, " x"),
            (1_023, " ]"),
            (1, " ..."),
        ],
        what: Shown::Count,
        gives: "1024",
    },
    Row {
        shows: "one of 1,024",
        pieces: &[
            (1, "---"),
            (1_024, " ["),
            (1, " x"),
            (1_024, " ]"),
            (1, " ..."),
        ],
        what: Shown::Count,
        gives: "18 TooHigh in document 0",
    },
    Row {
        shows: "1,022 lines that double",
        pieces: &[DOUBLE, (510, TWO_LINES), (1, " ] ...")],
        what: Shown::Count,
        gives: "1025",
    },
    Row {
        shows: "they are ranked with a visit a node",
        pieces: &[DOUBLE, (510, TWO_LINES), (1, " ] ...")],
        what: Shown::Visits,
        gives: "1025 ranks at most, 1025 visits",
    },
    Row {
        shows: "a line more",
        pieces: &[DOUBLE, (510, TWO_LINES), (1, " &a [ *b *b ] ] ...")],
        what: Shown::Count,
        gives: "18 TooHigh in document 0",
    },
    Row {
        shows: "the first of two documents that are too high",
        pieces: &[
            (1, "--- x ... ---"),
            (1_024, " ["),
            (1, " x"),
            (1_024, " ]"),
            (1, " ... ---"),
            (1_024, " ["),
            (1, " x"),
            (1_024, " ]"),
            (1, " ..."),
        ],
        what: Shown::Count,
        gives: "18 TooHigh in document 1",
    },
    Row {
        shows: "a document that is too high is told after all events",
        pieces: &[
            (1, "--- x ... ---"),
            (1_024, " ["),
            (1, " x"),
            (1_024, " ]"),
            (1, " ... ---"),
            (1_024, " ["),
            (1, " x"),
            (1_024, " ]"),
            (1, " ... --- *a ..."),
        ],
        what: Shown::Count,
        gives: "12 UndefinedAlias at event 4107",
    },
    Row {
        shows: "a hundred thousand anchors, and an alias to each",
        pieces: &[
            (1, "--- ["),
            (100_000, " &# x"),
            (100_000, " *#"),
            (1, " ] ..."),
        ],
        what: Shown::Count,
        gives: "100001",
    },
];

fn built(alloc: Global, pieces: &[(usize, &str)]) -> Result<String, Fail> {
    let mut text = String::new(alloc);
    for (count, piece) in pieces {
        for number in 0..*count {
            for part in piece.chars() {
                match part {
                    '#' => write!(text, "{number}")?,
                    _ => text.push(part)?,
                }
            }
        }
    }
    Ok(text)
}

#[test]
fn high_and_long_streams_are_composed_or_refused(rt: HostRuntime) -> Result<(), Fail> {
    for row in &ROWS {
        let words = built(rt.alloc(), row.pieces)?;
        gives(&rt, row.shows, words.as_str(), row.what, row.gives)?;
    }
    Ok(())
}
