//! Runs, with what they write, leave and count.
use crate::lengths::letters;
use crate::streams::{Ending, Narrow, Source};
use std::process::Abort;
use std::test::Fail;
use yaml_canon::run_canonical;
use yaml_text::counted::Counted;

/// A stream, and the call of its reader that fails, if any; how many bytes the writer takes in all, and
/// what it does then; the message of the fault, or nothing; what was written; and the counts of the
/// reader and of the writer.
struct Row {
    shows: &'static str,
    input: &'static str,
    bad_read: u32,
    room: usize,
    ending: Ending,
    fault: &'static str,
    text: &'static str,
    faults: (u64, u64),
}

/// Streams that have a text.
static WELL: [Row; 4] = [
    Row {
        shows: "a sequence",
        input: "[a, b]",
        bad_read: 0,
        room: usize::MAX,
        ending: Ending::Fails,
        fault: "",
        text: "--- [\"a\", \"b\"]\n",
        faults: (0, 0),
    },
    Row {
        shows: "no document",
        input: "# nothing\n",
        bad_read: 0,
        room: usize::MAX,
        ending: Ending::Fails,
        fault: "",
        text: "",
        faults: (0, 0),
    },
    Row {
        shows: "keys in their order",
        input: "b: 0x10\na: [x, x]\n",
        bad_read: 0,
        room: usize::MAX,
        ending: Ending::Fails,
        fault: "",
        text: "--- {\"a\" : [\"x\", \"x\"], \"b\" : !!int \"16\"}\n",
        faults: (0, 0),
    },
    Row {
        shows: "an alias, and a document more",
        input: "a: &q [x]\nb: *q\n---\nnull\n",
        bad_read: 0,
        room: usize::MAX,
        ending: Ending::Fails,
        fault: "",
        text: "--- {\"a\" : &a1 [\"x\"], \"b\" : *a1}\n--- !!null \"null\"\n",
        faults: (0, 0),
    },
];

/// Streams that are refused, one by each pass but the last.
static REFUSED: [Row; 7] = [
    Row {
        shows: "a character that is not printable",
        input: "a\u{0}",
        bad_read: 0,
        room: usize::MAX,
        ending: Ending::Fails,
        fault: "3 NotPrintable at byte 1",
        text: "",
        faults: (0, 0),
    },
    Row {
        shows: "a colon in a value",
        input: "a: b: c",
        bad_read: 0,
        room: usize::MAX,
        ending: Ending::Fails,
        fault: "4 Syntax at byte 4",
        text: "",
        faults: (0, 0),
    },
    Row {
        shows: "a tab",
        input: "a:\tb",
        bad_read: 0,
        room: usize::MAX,
        ending: Ending::Fails,
        fault: "5 Tab at byte 2",
        text: "",
        faults: (0, 0),
    },
    Row {
        shows: "an alias to nothing",
        input: "[*x]",
        bad_read: 0,
        room: usize::MAX,
        ending: Ending::Fails,
        fault: "12 UndefinedAlias at event 3",
        text: "",
        faults: (0, 0),
    },
    Row {
        shows: "an alias inside its node",
        input: "&a [*a]",
        bad_read: 0,
        room: usize::MAX,
        ending: Ending::Fails,
        fault: "13 CyclicAlias at event 3",
        text: "",
        faults: (0, 0),
    },
    Row {
        shows: "a float past its range",
        input: "1e1000001",
        bad_read: 0,
        room: usize::MAX,
        ending: Ending::Fails,
        fault: "17 FloatRange at event 2",
        text: "",
        faults: (0, 0),
    },
    Row {
        shows: "equal keys",
        input: "{1: a, 0x1: b}",
        bad_read: 0,
        room: usize::MAX,
        ending: Ending::Fails,
        fault: "19 EqualKeys in node 4, entries 0 and 1",
        text: "",
        faults: (0, 0),
    },
];

/// How many bytes a write takes, and how a run goes wrong whose text has 15 bytes.
static FAILING: [(usize, Row); 8] = [
    (
        3,
        Row {
            shows: "the second read fails",
            input: "[a, b]",
            bad_read: 2,
            room: 15,
            ending: Ending::Fails,
            fault: "22 ReadFault",
            text: "",
            faults: (1, 0),
        },
    ),
    (
        3,
        Row {
            shows: "the read at the end fails",
            input: "[a, b]",
            bad_read: 4,
            room: 15,
            ending: Ending::Fails,
            fault: "22 ReadFault",
            text: "",
            faults: (1, 0),
        },
    ),
    (
        3,
        Row {
            shows: "six bytes, three a call, are taken",
            input: "[a, b]",
            bad_read: 0,
            room: 6,
            ending: Ending::Fails,
            fault: "23 WriteFault",
            text: "--- [\"",
            faults: (0, 1),
        },
    ),
    (
        3,
        Row {
            shows: "a write takes nothing at once",
            input: "[a, b]",
            bad_read: 0,
            room: 0,
            ending: Ending::TakesNothing,
            fault: "23 WriteFault",
            text: "",
            faults: (0, 1),
        },
    ),
    (
        3,
        Row {
            shows: "the first write fails",
            input: "[a, b]",
            bad_read: 0,
            room: 0,
            ending: Ending::Fails,
            fault: "23 WriteFault",
            text: "",
            faults: (0, 1),
        },
    ),
    (
        1,
        Row {
            shows: "the last write takes nothing",
            input: "[a, b]",
            bad_read: 0,
            room: 14,
            ending: Ending::TakesNothing,
            fault: "23 WriteFault",
            text: "--- [\"a\", \"b\"]",
            faults: (0, 1),
        },
    ),
    (
        4_096,
        Row {
            shows: "the last write fails",
            input: "[a, b]",
            bad_read: 0,
            room: 14,
            ending: Ending::Fails,
            fault: "23 WriteFault",
            text: "--- [\"a\", \"b\"]",
            faults: (0, 1),
        },
    ),
    (
        3,
        Row {
            shows: "the flush fails",
            input: "[a, b]",
            bad_read: 0,
            room: 15,
            ending: Ending::DoesNotFlush,
            fault: "23 WriteFault",
            text: "--- [\"a\", \"b\"]\n",
            faults: (0, 1),
        },
    ),
];

/// The most bytes that a read gives, and a write takes.
static STEPS: [(usize, usize); 6] = [(1, 1), (2, 3), (3, 4096), (4096, 1), (1, 4096), (4096, 3)];

fn is_run<T: Abort + AllocGlobal>(
    rt: &T,
    row: &Row,
    read: usize,
    write: usize,
) -> Result<(), Fail> {
    let alloc = rt.alloc();
    let mut input = Counted::new(Source {
        bytes: row.input.as_bytes(),
        step: read,
        calls: 0,
        bad: row.bad_read,
    });
    let mut out = Counted::new(Narrow {
        held: Vec::new(alloc),
        longest: 0,
        step: write,
        room: row.room,
        ending: row.ending,
    });
    let fault = match run_canonical(alloc, &mut input, &mut out) {
        Ok(()) => String::new(alloc),
        Err(fault) => format!(in alloc; "{fault}")?,
    };
    let (faults, flushed) = ((input.faults(), out.faults()), out.flushed());
    let text = String::from_utf8(out.into_inner().held)?;
    let (fault, text) = (fault.as_str(), text.as_str());
    assert!(rt;
        fault == row.fault
            && text == row.text
            && faults == row.faults
            && flushed == row.fault.is_empty(),
        "{} by {read} and {write}: {fault:?} {text:?} {faults:?} {flushed}",
        row.shows
    );
    Ok(())
}

#[test]
fn a_text_is_written_whole_or_the_fault_is_told_and_counted(rt: HostRuntime) -> Result<(), Fail> {
    for row in &WELL {
        for (read, write) in &STEPS {
            is_run(&rt, row, *read, *write)?;
        }
    }
    for row in &REFUSED {
        is_run(&rt, row, 3, 4096)?;
    }
    for (write, row) in &FAILING {
        is_run(&rt, row, 2, *write)?;
    }
    Ok(())
}

/// The longest text that there is, of one scalar.
#[test]
fn no_piece_is_longer_than_a_page(rt: HostRuntime) -> Result<(), Fail> {
    let alloc = rt.alloc();
    let letters = letters(alloc, 67_108_857)?;
    let mut input = Counted::new(Source {
        bytes: letters.as_slice(),
        step: 4096,
        calls: 0,
        bad: 0,
    });
    let mut out = Counted::new(Narrow {
        held: Vec::new(alloc),
        longest: 0,
        step: usize::MAX,
        room: usize::MAX,
        ending: Ending::Fails,
    });
    let answer = run_canonical(alloc, &mut input, &mut out);
    let (is_well, flushed, narrow) = (answer.is_ok(), out.flushed(), out.into_inner());
    let (taken, longest) = (narrow.held.len(), narrow.longest);
    assert!(rt;
        is_well && flushed && taken == 67_108_864 && longest == 4096,
        "{is_well} {flushed} {taken} {longest}"
    );
    Ok(())
}
