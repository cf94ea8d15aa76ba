//! Event texts that are held whole, and longer ones that are written page by page.
use crate::fakes::{Broken, Narrow, Source};
use crate::files::Listed;
use crate::runs::owned;
use crate::texts::many;
use std::process::Abort;
use std::test::Fail;
use yaml_command::command::command_over;

/// A front, a piece 3,000 times, and an end.
type Text = (&'static str, &'static str, &'static str);

/// An input and its event text; the call of standard output, of three bytes each, that fails, if any; and the
/// status, which is 0 where the text is written whole. Otherwise it is written past two pages.
struct Row {
    input: Text,
    events: Text,
    bad: u32,
    status: u8,
}

/// A sequence of items with tags of two bytes, which stand for 245 each.
const TAGS: Text = (
    "%TAG ! tag:prefixprefixprefixprefixprefixprefixprefixprefixprefixprefixprefixprefixprefixprefixprefixprefixprefixprefixprefixprefixprefixprefixprefixprefixprefixprefixprefixprefixprefixprefixprefixprefixprefixprefixprefixprefixprefixprefixprefixprefix\n---\n",
    "- !a b\n",
    "",
);

/// Its event text, of some 188 pages.
const TAG_EVENTS: Text = (
    "+STR\n+DOC ---\n+SEQ\n",
    "=VAL <tag:prefixprefixprefixprefixprefixprefixprefixprefixprefixprefixprefixprefixprefixprefixprefixprefixprefixprefixprefixprefixprefixprefixprefixprefixprefixprefixprefixprefixprefixprefixprefixprefixprefixprefixprefixprefixprefixprefixprefixprefixa> :b\n",
    "-SEQ\n-DOC\n-STR\n",
);

/// One that is held, one of more pages, and one whose third page is not taken.
static ROWS: [Row; 3] = [
    Row {
        input: ("", "- a\n", ""),
        events: ("+STR\n+DOC\n+SEQ\n", "=VAL :a\n", "-SEQ\n-DOC\n-STR\n"),
        bad: 0,
        status: 0,
    },
    Row {
        input: TAGS,
        events: TAG_EVENTS,
        bad: 0,
        status: 0,
    },
    Row {
        input: TAGS,
        events: TAG_EVENTS,
        bad: 3_000,
        status: 3,
    },
];

fn is_written<T: Abort + AllocGlobal>(rt: &T, row: &Row) -> Result<(), Fail> {
    let alloc = rt.alloc();
    let words = owned(alloc, &["events"])?;
    let input = many(alloc, row.input.0, 3_000, row.input.1, row.input.2)?;
    let text = many(alloc, row.events.0, 3_000, row.events.1, row.events.2)?;
    let mut held = Vec::new(alloc);
    let mut err = Vec::new(alloc);
    let status = command_over(
        &Listed,
        alloc,
        words.as_slice(),
        Source::over(input.as_bytes()),
        Narrow::new(&mut held, row.bad, Broken::Fails),
        &mut err,
    );
    let begins = text.as_bytes().starts_with(held.as_slice()) && held.len() > 8_192;
    let is_whole = held.len() == text.len() && err.is_empty();
    assert!(rt;
        begins && status == row.status && is_whole == (status == 0),
        "{}, call {}: {status}, {} bytes, {begins}, {is_whole}",
        row.input.1,
        row.bad,
        held.len()
    );
    Ok(())
}

#[test]
fn event_texts_are_written_whole_or_a_beginning_of_them(rt: HostRuntime) -> Result<(), Fail> {
    for row in &ROWS {
        is_written(&rt, row)?;
    }
    Ok(())
}
