//! Lines that are read and written again. The first line that is none is told in `tools/data/cases/canon/event_texts.toml`.
use std::borrow::CowStr;
use std::process::Abort;
use std::test::Fail;
use yaml_events::{EventFault, longest_line, push_line, read_event_text, write_events};
use yaml_text::event::{Event, EventTag};

/// Asserts that a text is read, and that what is read is written as it was.
fn is_read<T: Abort + AllocGlobal>(rt: &T, text: &str) -> Result<(), Fail> {
    match read_event_text(rt.alloc(), text) {
        Ok(events) => {
            let again = write_events(rt.alloc(), events.as_slice())?;
            assert_eq!(rt; again.as_str(), text);
        }
        Err(fault) => assert_eq!(rt; fault, EventFault::BadLine(0), "{text:?}"),
    }
    Ok(())
}

static READ: [&str; 19] = [
    // no line
    "",
    // nesting is not judged
    "-STR\n+STR\n",
    // the stream
    "+STR\n-STR\n",
    // documents
    "+DOC\n+DOC ---\n-DOC\n-DOC ...\n",
    // collections
    "+SEQ\n+SEQ []\n-SEQ\n+MAP\n+MAP {}\n-MAP\n",
    // properties of collections
    "+SEQ [] &a <!>\n+MAP {} <tag:yaml.org,2002:map>\n+SEQ &\u{E9}\n+MAP &a <x>\n",
    // each style
    "=VAL :a\n=VAL 'a\n=VAL \"a\n=VAL |a\n=VAL >a\n",
    // empty values
    "=VAL :\n=VAL &a :\n=VAL <!> \"\n",
    // properties of scalars
    "=VAL &a <!> :b\n=VAL &a <x> 'b\n",
    // an alias
    "=ALI *a\n",
    // each escape
    "=VAL |\\\\ \\n \\t \\r \\b\n",
    // a backslash before a letter
    "=VAL :\\\\n\n",
    // a value of spaces
    "=VAL :  \n",
    // a value that looks like properties
    "=VAL :&a <b>\n",
    // a tag of encoded bytes
    "=VAL <%C3%A9%25!> :x\n",
    // a tag of every URI character
    "=VAL <aZ0-#;/?:@&=+$,_.!~*'()[]> :x\n",
    // characters past ASCII
    "=VAL :\u{E9}\u{2028}\u{1F600}\n",
    // a control character
    "=VAL \"\u{1}\u{7F}\n",
    // a byte order mark in a value
    "=VAL :\u{FEFF}\n",
];

#[test]
fn what_is_read_is_written_as_it_was(rt: HostRuntime) -> Result<(), Fail> {
    for text in &READ {
        is_read(&rt, text)?;
    }
    Ok(())
}

/// Asserts that each line of a text is written again into a text that has room for the longest, and
/// none of them needs more.
fn has_room<T: Abort + AllocGlobal>(rt: &T, text: &str) -> Result<(), Fail> {
    let Ok(events) = read_event_text(rt.alloc(), text) else {
        return Ok(());
    };
    let most = longest_line(events.as_slice())?;
    let mut line = String::with_capacity(rt.alloc(), most)?;
    let mut again = String::new(rt.alloc());
    for event in events.as_slice() {
        line.clear();
        push_line(event, &mut line)?;
        again.push_str(line.as_str())?;
    }
    assert_eq!(rt; line.capacity(), most, "{text:?}");
    assert_eq!(rt; again.as_str(), text);
    Ok(())
}

#[test]
fn no_line_exceeds_the_longest(rt: HostRuntime) -> Result<(), Fail> {
    for text in &READ {
        has_room(&rt, text)?;
    }
    Ok(())
}

/// The line of a scalar with a tag of so many letters.
fn tagged<T: AllocGlobal>(rt: &T, letters: usize) -> Result<String, Fail> {
    let mut line = String::new(rt.alloc());
    line.push_str("=VAL <")?;
    for _ in 0..letters {
        line.push('a')?;
    }
    line.push_str("> :\n")?;
    Ok(line)
}

#[test]
fn a_tag_has_1024_bytes_at_most(rt: HostRuntime) -> Result<(), Fail> {
    is_read(&rt, tagged(&rt, 1_024)?.as_str())?;
    let long = tagged(&rt, 1_025)?;
    let fault = read_event_text(rt.alloc(), long.as_str()).err();
    assert_eq!(rt; fault, Some(EventFault::BadLine(1)));
    Ok(())
}

fn is_slice(text: &CowStr<'_>) -> bool {
    match text {
        CowStr::Borrowed(_) => true,
        CowStr::Owned(_) => false,
    }
}

/// Whether an event's text or name is a slice of the text that it was read from.
fn has_slice(event: &Event<'_>) -> bool {
    match event {
        Event::Scalar { text, .. } => is_slice(text),
        Event::Alias { name } => is_slice(name),
        _ => false,
    }
}

/// Whether an event's tag is one.
fn has_tag_slice(event: &Event<'_>) -> bool {
    match event {
        Event::Scalar { tag, .. } => match tag {
            EventTag::Full(full) => is_slice(full),
            _ => false,
        },
        _ => false,
    }
}

#[test]
fn what_stands_there_as_it_is_is_a_slice(rt: HostRuntime) -> Result<(), Fail> {
    let events = read_event_text(
        rt.alloc(),
        "=VAL &a <t> :b c\n=VAL &a <%25> :\\n\n=ALI *a\n",
    )?;
    let mut texts = Vec::new(rt.alloc());
    let mut tags = Vec::new(rt.alloc());
    for event in events.as_slice() {
        texts.push(has_slice(event))?;
        tags.push(has_tag_slice(event))?;
    }
    assert_eq!(rt; texts.as_slice(), [true, false, true].as_slice());
    assert_eq!(rt; tags.as_slice(), [true, false, false].as_slice());
    Ok(())
}

#[test]
fn messages_name_the_line(rt: HostRuntime) -> Result<(), Fail> {
    let bad = format!(in rt.alloc(); "{}, {}", EventFault::BadLine(2), EventFault::OutOfMemory)?;
    assert_eq!(rt; bad.as_str(), "bad line 2, 21 OutOfMemory");
    Ok(())
}
