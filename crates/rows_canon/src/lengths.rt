//! Lengths of canonical texts.
use std::alloc::Global;
use std::test::Fail;
use yaml_canon::canonical_len;
use yaml_graph::compose;
use yaml_rank::rank;
use yaml_read::read_events;
use yaml_text::chars::Chars;
use yaml_text::fault::Fault;

/// The length of the canonical text of a stream.
fn length(alloc: Global, bytes: &[u8]) -> Result<usize, Fault> {
    let source = Chars::read(bytes)?;
    let events = read_events(alloc, &source)?;
    let graph = compose(alloc, &events)?;
    let ranks = rank(alloc, &graph)?;
    canonical_len(alloc, &graph, &ranks)
}

/// That length, or the message of the fault.
fn told(alloc: Global, bytes: &[u8]) -> Result<String, Fail> {
    match length(alloc, bytes) {
        Ok(len) => Ok(format!(in alloc; "{len}")?),
        Err(fault) => Ok(format!(in alloc; "{fault}")?),
    }
}

/// A scalar of as many letters.
pub fn letters(alloc: Global, count: usize) -> Result<Vec<u8>, Fail> {
    let mut letters = Vec::with_capacity(alloc, count)?;
    for _ in 0..count {
        letters.push(b'a')?;
    }
    Ok(letters)
}

/// Streams and their texts.
static ROWS: [(&str, &str); 5] = [
    ("# nothing", ""),
    ("a", "--- \"a\"\n"),
    ("[a, b]", "--- [\"a\", \"b\"]\n"),
    ("a: 1", "--- {\"a\" : !!int \"1\"}\n"),
    (
        "- &x [p, q]\n- [p, q]\n- *x\n",
        "--- [&a1 [\"p\", \"q\"], *a1, *a1]\n",
    ),
];

#[test]
fn the_length_is_that_of_the_text(rt: HostRuntime) -> Result<(), Fail> {
    let alloc = rt.alloc();
    for (input, text) in &ROWS {
        let got = told(alloc, input.as_bytes())?;
        let want = format!(in alloc; "{}", text.len())?;
        assert!(rt; got.as_str() == want.as_str(), "{input}: {got}");
    }
    Ok(())
}

/// How many letters a scalar has, and the length of its text, which is 7 bytes more, unless that is too
/// long.
static LETTERS: [(usize, &str); 2] = [(67_108_857, "67108864"), (67_108_858, "20 TextTooLong")];

#[test]
fn a_text_past_the_limit_is_refused(rt: HostRuntime) -> Result<(), Fail> {
    let alloc = rt.alloc();
    for (count, want) in &LETTERS {
        let letters = letters(alloc, *count)?;
        let got = told(alloc, letters.as_slice())?;
        assert!(rt; got.as_str() == *want, "{count}: {got}");
    }
    Ok(())
}
