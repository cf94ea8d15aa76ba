//! Streams that are ranked in one store.
use std::alloc::Global;
use std::test::Fail;
use yaml_canon::{ranked_streams, ranked_streams_with};
use yaml_read::count::Counter;
use yaml_store_rank::RankedForests;
use yaml_tree::node::NodeId;

/// How many documents each of three streams has and what a fourth would have, and behind how many events each ends; or the stream that
/// is told where they are rejected.
fn told(alloc: Global, streams: [&str; 3]) -> Result<String, Fail> {
    let [first, second, third] = streams;
    let counter = Counter {
        events: 0,
        bytes: None,
    };
    let others = [second.as_bytes(), third.as_bytes()];
    let mut text = String::new(alloc);
    match ranked_streams_with(alloc, first.as_bytes(), &others, counter) {
        Ok((forests, _, ends)) => {
            for stream in 0..4 {
                write!(text, "{} ", forests.documents(stream).len())?;
            }
            for end in &ends {
                write!(text, "-{end}")?;
            }
        }
        Err(stream) => write!(text, "stream {stream}")?,
    }
    Ok(text)
}

/// What three streams show, the streams, and what is told of them.
static ROWS: [(&str, [&str; 3], &str); 7] = [
    (
        "each stream has its own documents",
        ["a\n--- b\n", "# none\n", "c\n"],
        "2 0 1 0 -8-10-15",
    ),
    ("streams of no bytes", ["", "", ""], "0 0 0 0 -2-4-6"),
    (
        "anchors are those of their stream",
        ["&x a\n", "*x\n", "a\n"],
        "stream 1",
    ),
    ("the first is no stream", ["[", "[", "a\n"], "stream 0"),
    ("the last is too short", ["a\n", "a\n", "{"], "stream 2"),
    (
        "equal keys of any stream are found when all are read",
        ["a\n", "{k: 1, k: 2}\n", "a\n"],
        "stream 0",
    ),
    (
        "what is read later is told of first",
        ["a\n", "{k: 1, k: 2}\n", "["],
        "stream 2",
    ),
];

#[test]
fn streams_stand_apart(rt: HostRuntime) -> Result<(), Fail> {
    for (name, streams, want) in &ROWS {
        let got = told(rt.alloc(), *streams)?;
        assert!(rt; got.as_str() == *want, "{name}: {got}");
    }
    Ok(())
}

/// Whether two nodes have one rank.
fn have_one_rank(forests: &RankedForests<'_>, left: NodeId, right: NodeId) -> bool {
    left.0 < forests.len() && right.0 < forests.len() && forests.rank(left) == forests.rank(right)
}

/// Two streams, and whether their first documents have one rank.
static PAIRS: [(&str, &str, bool); 3] = [
    ("{b: 1, a: 1}\n", "{a: 1, b: 1}\n", true),
    ("[a, b]\n", "[b, a]\n", false),
    ("&x [a]\n", "- a\n", true),
];

#[test]
fn ranks_tell_documents_of_two_streams_apart(rt: HostRuntime) -> Result<(), Fail> {
    for (left, right, want) in &PAIRS {
        let got = match ranked_streams(rt.alloc(), left.as_bytes(), &[right.as_bytes()]) {
            Ok(forests) => match (forests.documents(0).first(), forests.documents(1).first()) {
                (Some(first), Some(second)) => have_one_rank(&forests, *first, *second),
                _ => !*want,
            },
            Err(_) => !*want,
        };
        assert!(rt; got == *want, "{left} {right}");
    }
    Ok(())
}
