//! Texts of a million characters and more, each in one pass.
use crate::core_rows::{Given, Is, gives};
use std::alloc::Global;
use std::test::Fail;

/// `head`, so many times `middle`, and `tail`.
fn long(alloc: Global, head: &str, middle: &str, count: usize, tail: &str) -> Result<String, Fail> {
    let mut text = String::from_str(alloc, head)?;
    for _ in 0..count {
        text.push_str(middle)?;
    }
    text.push_str(tail)?;
    Ok(text)
}

/// What a long text resolves to, with its canonical content: its head, its middle, how often that stands, and its tail.
struct LongText {
    head: &'static str,
    middle: &'static str,
    count: usize,
    tail: &'static str,
    is: Is,
    content: &'static str,
}

static LONG_TEXTS: [LongText; 8] = [
    // Exponent of a million nines.
    LongText {
        head: "1e",
        middle: "9",
        count: 1_000_000,
        tail: "",
        is: Is::FloatRange,
        content: "",
    },
    // Exponent of a million zeros.
    LongText {
        head: "-1.5e-",
        middle: "0",
        count: 1_000_000,
        tail: "7",
        is: Is::Float,
        content: "-1.5e-7",
    },
    // Million zeros before the first digit.
    LongText {
        head: "0.",
        middle: "0",
        count: 1_000_000,
        tail: "1e1000000",
        is: Is::Float,
        content: "1e-1",
    },
    // Million zeros after the last digit.
    LongText {
        head: "7",
        middle: "0",
        count: 1_000_000,
        tail: "e-1000000",
        is: Is::Float,
        content: "7",
    },
    // Int of 16 megabytes of zeros.
    LongText {
        head: "-",
        middle: "00000000",
        count: 2_000_000,
        tail: "5",
        is: Is::Int,
        content: "-5",
    },
    // Int of 16 megabytes of digits.
    LongText {
        head: "",
        middle: "12345678",
        count: 2_000_000,
        tail: "",
        is: Is::IntRange,
        content: "",
    },
    // Octal of 16 megabytes of zeros.
    LongText {
        head: "0o",
        middle: "00000000",
        count: 2_000_000,
        tail: "17",
        is: Is::Int,
        content: "15",
    },
    // Hexadecimal of 16 megabytes.
    LongText {
        head: "0x",
        middle: "abcdef01",
        count: 2_000_000,
        tail: "",
        is: Is::IntRange,
        content: "",
    },
];

#[test]
fn long_texts_are_resolved_in_one_pass(rt: HostRuntime) -> Result<(), Fail> {
    for row in &LONG_TEXTS {
        let text = long(rt.alloc(), row.head, row.middle, row.count, row.tail)?;
        gives(&rt, Given::Plain, text.as_str(), row.is, row.content)?;
    }
    Ok(())
}
