//! Tags of each form.
use crate::mark_rows::{Call, Row, answers, tag_at};
use std::alloc::Global;
use std::borrow::CowStr;
use std::test::Fail;
use yaml_text::chars::Chars;
use yaml_text::event::EventTag;

/// Tags are decoded once.
static TAGS: [Row; 18] = [
    ("! a", 0, "! ends at 1"),
    ("!", 0, "! ends at 1"),
    ("!,a", 0, "! ends at 1"),
    ("!a b", 0, "!a ends at 2"),
    ("!-a\tb", 0, "!-a ends at 3"),
    ("!!str x", 0, "tag:yaml.org,2002:str ends at 5"),
    ("[!!int]", 1, "tag:yaml.org,2002:int ends at 6"),
    ("!<tag:a,b> x", 0, "tag:a,b ends at 10"),
    ("!<!%c3%a9> v", 0, "!é ends at 10"),
    ("!<[]> x", 0, "[] ends at 5"),
    ("!<a>,b", 0, "a ends at 4"),
    ("!a%21b c", 0, "!a!b ends at 6"),
    ("!a%2521 c", 0, "!a%21 ends at 7"),
    ("!a%2C%5B\n", 0, "!a,[ ends at 8"),
    ("!%00 c", 0, "!\0 ends at 4"),
    ("!a] b", 0, "!a ends at 2"),
    ("é !x", 3, "!x ends at 5"),
    ("!<%41>", 0, "A ends at 6"),
];

/// Handles stand for their prefixes.
static BOUND: [Row; 9] = [
    (
        "%TAG !e! tag:example.com,2000:\n---\n!e!x%21 v",
        35,
        "tag:example.com,2000:x! ends at 42",
    ),
    ("%TAG !e! a%c3\n---\n!e!%a9 v", 18, "aé ends at 24"),
    ("%TAG !e! %c3\n---\n!e!%a9 v", 17, "é ends at 23"),
    ("%TAG !e! %41%e2%82\n---\n!e!%ac%42 v", 23, "A€B ends at 32"),
    ("%TAG ! !my-\n---\n!x v", 16, "!my-x ends at 18"),
    ("%TAG !! t:\n---\n!!x v", 15, "t:x ends at 18"),
    ("%TAG ! t:\n---\n! v", 14, "! ends at 15"),
    (
        "%TAG !e! a\n---\n!!x v",
        15,
        "tag:yaml.org,2002:x ends at 18",
    ),
    (
        "%TAG !a! a\n%TAG !b! b\n%TAG !-! c\n---\n!b!x v",
        37,
        "bx ends at 41",
    ),
];

/// What is no tag is refused.
static NO_TAGS: [Row; 25] = [
    ("!<a b> x", 0, "11 BadTag at byte 0"),
    ("!<>", 0, "11 BadTag at byte 0"),
    ("!<a", 0, "11 BadTag at byte 0"),
    ("!<!> x", 0, "11 BadTag at byte 0"),
    ("!<%21> x", 0, "11 BadTag at byte 0"),
    ("!<a%2>", 0, "11 BadTag at byte 0"),
    ("!!%ff x", 0, "11 BadTag at byte 0"),
    ("- !!%c3 x", 2, "11 BadTag at byte 2"),
    ("!! x", 0, "11 BadTag at byte 0"),
    ("!!", 0, "11 BadTag at byte 0"),
    ("!!a!b c", 0, "11 BadTag at byte 0"),
    ("!a\"b", 0, "11 BadTag at byte 0"),
    ("!a%2", 0, "11 BadTag at byte 0"),
    ("!a%", 0, "11 BadTag at byte 0"),
    ("!é", 0, "11 BadTag at byte 0"),
    ("%TAG !e! a\n---\n!e! v", 15, "11 BadTag at byte 15"),
    ("%TAG !e! %c3\n---\n!e!x v", 17, "11 BadTag at byte 17"),
    ("%TAG !e! %a9\n---\n!e!%c3 v", 17, "11 BadTag at byte 17"),
    ("%TAG !e! %c3\n---\n!e!%c3 v", 17, "11 BadTag at byte 17"),
    ("!e!x v", 0, "10 UnknownHandle at byte 0"),
    ("!e!%zz x", 0, "10 UnknownHandle at byte 0"),
    ("%TAG !e! a\n---\n!f!x v", 15, "10 UnknownHandle at byte 15"),
    ("!<a>b", 0, "4 Syntax at byte 4"),
    ("a", 0, "4 Syntax at byte 0"),
    ("\u{FEFF}a", 0, "4 Syntax at byte 3"),
];

#[test]
fn tags_are_read_or_refused(rt: HostRuntime) -> Result<(), Fail> {
    let tables: [&[Row]; 3] = [&TAGS, &BOUND, &NO_TAGS];
    for table in &tables {
        for row in *table {
            answers(&rt, Call::Tag, row)?;
        }
    }
    Ok(())
}

/// Whether a text's tag is borrowed from it.
fn is_borrowed(alloc: Global, text: &str) -> Result<bool, Fail> {
    let source = Chars::read(text.as_bytes())?;
    let (tag, _) = tag_at(alloc, &source, 0)?;
    Ok(matches!(tag, EventTag::Full(CowStr::Borrowed("ab"))))
}

#[test]
fn verbatim_tags_without_escapes_are_borrowed(rt: HostRuntime) -> Result<(), Fail> {
    assert!(rt; is_borrowed(rt.alloc(), "!<ab> c")?);
    Ok(())
}

/// Whether the verbatim tag of a piece that stands so many times is read.
fn is_tag(alloc: Global, piece: &str, count: usize) -> Result<bool, Fail> {
    let mut text = String::new(alloc);
    text.push_str("!<")?;
    for done in 0..count {
        text.push_str(piece)?;
    }
    text.push_str(">")?;
    let source = Chars::read(text.as_bytes())?;
    Ok(tag_at(alloc, &source, 0).is_ok())
}

#[test]
fn decoded_tags_have_at_most_1024_bytes(rt: HostRuntime) -> Result<(), Fail> {
    for (piece, count, want) in [
        ("a", 1024, true),
        ("a", 1025, false),
        ("%41", 1024, true),
        ("%41", 1025, false),
        ("%c3%a9", 512, true),
        ("%c3%a9", 513, false),
    ] {
        let got = is_tag(rt.alloc(), piece, count)?;
        assert_eq!(rt; got, want, "{piece}");
    }
    Ok(())
}
