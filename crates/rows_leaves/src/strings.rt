//! Strings (RFC 8259, 7).
use crate::json_rows::{Row, answers};
use std::test::Fail;

static STRINGS: [Row; 40] = [
    ("\"\"", true),
    ("\" a b \"", true),
    ("\"[1, {}]: null // 1\"", true),
    ("\"'\"", true),
    ("\"é€\u{1F600}\"", true),
    (
        "\"\u{7F}\u{80}\u{A0}\u{2028}\u{FEFF}\u{FFFF}\u{10FFFF}\"",
        true,
    ),
    ("\"\\\"\\\\\\/\\b\\f\\n\\r\\t\"", true),
    ("\"\\u0000\\u001F\\uabCD\\uFFff\"", true),
    ("\"\\uD83D\\uDE00\"", true),
    ("\"\\uD83D\"", true),
    ("\"\\uDE00\\uD83D\"", true),
    ("\"\\u00610\"", true),
    ("\"\\\\u12\"", true),
    ("\"/\"", true),
    ("\"", false),
    ("\"a", false),
    ("a\"", false),
    ("\"a\"b\"", false),
    ("\"\"\"", false),
    ("'a'", false),
    ("\"\n\"", false),
    ("\"\t\"", false),
    ("\"\r\"", false),
    ("\"\u{0}\"", false),
    ("\"\u{1F}\"", false),
    ("\"\\\"", false),
    ("\"\\", false),
    ("\"\\a\"", false),
    ("\"\\v\"", false),
    ("\"\\0\"", false),
    ("\"\\'\"", false),
    ("\"\\x41\"", false),
    ("\"\\U0041\"", false),
    ("\"\\u\"", false),
    ("\"\\u004\"", false),
    ("\"\\u004", false),
    ("\"\\u00g0\"", false),
    ("\"\\u 041\"", false),
    ("\"\\é\"", false),
    ("\"\\\n\"", false),
];

#[test]
fn a_string_is_quoted_and_has_no_control_character(rt: HostRuntime) -> Result<(), Fail> {
    for row in &STRINGS {
        answers(&rt, row)?;
    }
    Ok(())
}
