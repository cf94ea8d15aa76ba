//! Names of anchors and aliases.
use crate::mark_rows::{Call, Row, answers};
use std::alloc::Global;
use std::borrow::CowStr;
use std::test::Fail;
use yaml_mark::name::read_name;
use yaml_text::chars::Chars;
use yaml_text::places::is_border;

static NAMES: [Row; 17] = [
    ("&a b", 0, "a ends at 2"),
    ("*a b", 0, "a ends at 2"),
    ("*a", 0, "a ends at 2"),
    ("&a\tb", 0, "a ends at 2"),
    ("&a\nb", 0, "a ends at 2"),
    ("&a:b c", 0, "a:b ends at 4"),
    ("&a: b", 0, "a: ends at 3"),
    ("[&a,b]", 1, "a ends at 3"),
    ("[*a]", 1, "a ends at 3"),
    ("&&&", 0, "&& ends at 3"),
    ("&é*!\"#x y", 0, "é*!\"#x ends at 8"),
    ("& a", 0, "4 Syntax at byte 1"),
    ("&", 0, "4 Syntax at byte 1"),
    ("*,", 0, "4 Syntax at byte 1"),
    ("- &\ta", 2, "4 Syntax at byte 3"),
    ("a", 0, "4 Syntax at byte 0"),
    ("\u{FEFF}a", 0, "4 Syntax at byte 3"),
];

#[test]
fn names_go_as_far_as_their_characters(rt: HostRuntime) -> Result<(), Fail> {
    for row in &NAMES {
        answers(&rt, Call::Name, row)?;
    }
    Ok(())
}

/// Whether a text's name is borrowed from it.
fn is_borrowed(alloc: Global, text: &str) -> Result<bool, Fail> {
    let source = Chars::read(text.as_bytes())?;
    if !is_border(&source, 0) {
        return Ok(false);
    }
    let (name, _) = read_name(alloc, &source, 0)?;
    Ok(matches!(name, CowStr::Borrowed("ab")))
}

#[test]
fn names_are_borrowed(rt: HostRuntime) -> Result<(), Fail> {
    assert!(rt; is_borrowed(rt.alloc(), "&ab c")?);
    Ok(())
}
