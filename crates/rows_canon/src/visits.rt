//! How many nodes are visited as the nodes of a stream's store are ranked.
use std::alloc::Global;
use std::test::Fail;
use yaml_read::read_into;
use yaml_sink::sink::Sink;
use yaml_store_composer::Composing;
use yaml_store_rank::compact_rank;
use yaml_text::chars::Chars;
use yaml_text::fault::Fault;

/// How many nodes the store of a stream has, and how many of them are visited.
fn counted(alloc: Global, bytes: &[u8]) -> Result<(usize, u64), Fault> {
    let source = Chars::read(bytes)?;
    let composing = Composing::new(alloc, "")?;
    let mut out = Sink::Kept(composing);
    read_into(alloc, &source, &mut out)?;
    let composing = match out {
        Sink::Kept(composing) => composing,
        Sink::Listed(list) => {
            drop(list);
            return Err(Fault::OutOfMemory);
        }
        Sink::Both(both) => {
            drop(both);
            return Err(Fault::OutOfMemory);
        }
    };
    let forest = composing.finish()?;
    let nodes = forest.store.len();
    let ranked = compact_rank(alloc, forest.store)?;
    Ok((nodes, ranked.visits()))
}

/// Those counts, or the message of the fault.
fn told(alloc: Global, bytes: &[u8]) -> Result<String, Fail> {
    match counted(alloc, bytes) {
        Ok((nodes, visits)) => Ok(format!(in alloc; "{nodes} nodes, {visits} visits")?),
        Err(fault) => Ok(format!(in alloc; "{fault}")?),
    }
}

/// What a stream shows, the stream, and its counts.
static ROWS: [(&str, &str, &str); 9] = [
    ("no document has no node", "# nothing", "0 nodes, 0 visits"),
    ("a scalar is one node", "a", "1 nodes, 1 visits"),
    (
        "a sequence is a node beside its items",
        "[a, b]",
        "3 nodes, 3 visits",
    ),
    (
        "a mapping is a node beside its keys and values",
        "{a: b, c: d}",
        "5 nodes, 5 visits",
    ),
    (
        "equal scalars are one node",
        "[a, a, a]",
        "2 nodes, 2 visits",
    ),
    (
        "equal collections are one node",
        "[[a, b], [a, b]]",
        "4 nodes, 4 visits",
    ),
    (
        "an alias is no node",
        "[&x [a, b], *x, *x]",
        "4 nodes, 4 visits",
    ),
    ("nodes of four heights", "[[[a]], b]", "5 nodes, 5 visits"),
    (
        "the documents of a stream have their nodes in common",
        "--- [a]\n--- [a]\n--- b\n",
        "3 nodes, 3 visits",
    ),
];

#[test]
fn each_node_is_visited_once(rt: HostRuntime) -> Result<(), Fail> {
    let alloc = rt.alloc();
    for (shows, input, want) in &ROWS {
        let got = told(alloc, input.as_bytes())?;
        assert!(rt; got.as_str() == *want, "{shows}: {got}");
    }
    Ok(())
}
