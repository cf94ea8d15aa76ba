//! Streams of which the store has the documents, or tells why not, where properties stand on lines above a collection.
use std::alloc::Global;
use std::test::Fail;
use yaml_read::read_into;
use yaml_sink::sink::Sink;
use yaml_store_composer::Composing;
use yaml_text::chars::Chars;
use yaml_text::fault::Fault;

/// How many documents the store has of a stream.
fn composed(alloc: Global, bytes: &[u8]) -> Result<usize, Fault> {
    let source = Chars::read(bytes)?;
    let composing = Composing::new(alloc, "")?;
    let mut out = Sink::Kept(composing);
    read_into(alloc, &source, &mut out)?;
    let composing = match out {
        Sink::Kept(composing) => composing,
        Sink::Listed(list) => {
            drop(list);
            return Err(Fault::OutOfMemory);
        }
        Sink::Both(both) => {
            drop(both);
            return Err(Fault::OutOfMemory);
        }
    };
    let forest = composing.finish()?;
    Ok(forest.roots.len())
}

/// That number, or the message of the fault.
fn told(alloc: Global, bytes: &[u8]) -> Result<String, Fail> {
    match composed(alloc, bytes) {
        Ok(count) => Ok(format!(in alloc; "{count} documents")?),
        Err(fault) => Ok(format!(in alloc; "{fault}")?),
    }
}

/// What a stream shows, the stream, and what is told of it.
static ROWS: [(&str, &str, &str); 26] = [
    (
        "outer properties are a mapping's whose first key is a collection",
        "!t\n[a]: b\n",
        "1 documents",
    ),
    ("below a dash, too", "- !!map\n  [a]: b\n", "1 documents"),
    ("and as a value", "k: !t\n  [a]: b\n", "1 documents"),
    (
        "without a colon they are the collection's",
        "!!seq\n&a [a]\n",
        "1 documents",
    ),
    (
        "a tag on its line and an anchor above",
        "&a\n!!seq [a]\n",
        "1 documents",
    ),
    ("both above", "!m\n&x\n{a: b}\n", "1 documents"),
    (
        "two anchors and two tags",
        "!m\n&x\n!n &y {a: b}: c\n",
        "1 documents",
    ),
    (
        "a mapping's anchor above serves behind it",
        "k:\n  !t &x\n  [a]: b\nl: *x\n",
        "1 documents",
    ),
    (
        "an alias to an earlier node of another name",
        "- &x a\n- &y\n  [*x]: b\n- *y\n- *x\n",
        "1 documents",
    ),
    ("a key's own anchor", "&x\n&y [c]: *y\n", "1 documents"),
    (
        "an anchor given again inside",
        "!t\n&x [[a]: &x b, *x]: *x\n",
        "1 documents",
    ),
    (
        "in two documents",
        "--- !t\n[a]: b\n---\n!t\n[a]: b\n",
        "2 documents",
    ),
    (
        "an alias to the mapping in its key",
        "&x\n[*x]: b\n",
        "13 CyclicAlias at event 4",
    ),
    (
        "to the key itself",
        "&x\n&y [*y]: b\n",
        "13 CyclicAlias at event 4",
    ),
    (
        "to a collection that is no key",
        "&a\n!!seq [a, *a]\n",
        "13 CyclicAlias at event 4",
    ),
    (
        "an anchor above hides an earlier one",
        "- &x a\n- &x\n  [*x]: b\n",
        "13 CyclicAlias at event 6",
    ),
    (
        "to the mapping in its value",
        "&x\n[c]: *x\n",
        "13 CyclicAlias at event 6",
    ),
    (
        "no anchor, in a key",
        "[*x]: b\n",
        "12 UndefinedAlias at event 4",
    ),
    (
        "no anchor, in a key with properties above",
        "!t\n[*x]: b\n",
        "12 UndefinedAlias at event 4",
    ),
    (
        "no anchor, in a pair of a key",
        "!t\n[[a]: b, [*z]: c]: d\n",
        "12 UndefinedAlias at event 12",
    ),
    (
        "a tag above that is no mapping's",
        "!!seq\n[a]: b\n",
        "14 WrongKind at event 2",
    ),
    (
        "a tag above that is no sequence's",
        "!!map\n[a]\n",
        "14 WrongKind at event 2",
    ),
    (
        "a key's own tag",
        "!!map\n!!map [a]: b\n",
        "14 WrongKind at event 3",
    ),
    (
        "a key's content",
        "!t\n[!!int z]: b\n",
        "15 BadContent at event 4",
    ),
    (
        "the mapping's tag comes first",
        "!!seq\n[!!int z]: b\n",
        "14 WrongKind at event 2",
    ),
    (
        "and the collection's",
        "!!str\n[!!int z]\n",
        "14 WrongKind at event 2",
    ),
];

#[test]
fn the_store_has_streams_with_properties_above_a_collection(rt: HostRuntime) -> Result<(), Fail> {
    let alloc = rt.alloc();
    for (shows, input, want) in &ROWS {
        let got = told(alloc, input.as_bytes())?;
        assert!(rt; got.as_str() == *want, "{shows}: {got}");
    }
    Ok(())
}
