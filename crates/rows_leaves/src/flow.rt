//! Flow scalars: the worked rows, and a row for each sentence of the productions.
use crate::scalar_rows::{Call, Flow, Refused, is_read, is_refused, read_flow};
use std::alloc::Global;
use std::borrow::CowStr;
use std::test::Fail;
use yaml_text::context::Ctx;

/// Plain scalars end as far as they can.
static PLAIN: [Flow; 23] = [
    ("a b #c", 0, 0, Ctx::FlowOut, "a b", 3),
    ("a\nb", 0, 0, Ctx::FlowOut, "a b", 3),
    ("a\nb", 0, 1, Ctx::FlowOut, "a", 1),
    ("a: b", 0, 0, Ctx::BlockKey, "a", 1),
    ("a\nb", 0, 0, Ctx::BlockKey, "a", 1),
    ("a\nb", 0, 0, Ctx::FlowKey, "a", 1),
    ("a\n\nb\nc\n", 0, 0, Ctx::BlockIn, "a\nb c", 6),
    ("a\n--- b", 0, 0, Ctx::FlowOut, "a", 1),
    ("a\n...", 0, 0, Ctx::FlowOut, "a", 1),
    ("a\n --- b", 0, 0, Ctx::FlowOut, "a --- b", 8),
    ("a\n---b", 0, 0, Ctx::FlowOut, "a ---b", 6),
    ("a \r\n \n\n  b#:c,d", 0, 0, Ctx::FlowOut, "a\n\nb#:c,d", 15),
    ("a\n #b", 0, 0, Ctx::FlowOut, "a", 1),
    ("a\t b\t", 0, 0, Ctx::FlowOut, "a\t b", 4),
    ("a\n \tb", 0, 1, Ctx::FlowOut, "a b", 5),
    ("a\n\tb", 0, 1, Ctx::FlowOut, "a", 1),
    ("-a,b", 0, 0, Ctx::FlowIn, "-a", 2),
    ("-a,b]", 0, 0, Ctx::BlockOut, "-a,b]", 5),
    ("?é:\u{2028}x", 0, 0, Ctx::FlowIn, "?é:\u{2028}x", 8),
    ("a\rb", 0, 0, Ctx::FlowOut, "a b", 3),
    ("a\u{85}b", 0, 0, Ctx::FlowOut, "a\u{85}b", 4),
    ("é\n--- 'b' ---", 11, 0, Ctx::FlowOut, "---", 14),
    ("é\n--- 'b' ---", 0, 0, Ctx::FlowOut, "é", 2),
];

/// Single quoted scalars end at a lone quote.
static SINGLE: [Flow; 11] = [
    ("'a b' c", 0, 1, Ctx::FlowOut, "a b", 5),
    ("'it''s'", 0, 1, Ctx::FlowOut, "it's", 7),
    ("''", 0, 1, Ctx::FlowKey, "", 2),
    ("''''", 0, 1, Ctx::FlowIn, "'", 4),
    ("'a \n \n  b '", 0, 1, Ctx::FlowOut, "a\nb ", 11),
    ("' \n '", 0, 1, Ctx::FlowOut, " ", 5),
    ("'a\\\r\nb'", 0, 0, Ctx::FlowIn, "a\\ b", 7),
    ("'a\n \tb'", 0, 1, Ctx::BlockOut, "a b", 7),
    ("'a\r\r\nb'", 0, 0, Ctx::FlowOut, "a\nb", 7),
    ("'''a\u{85}'''", 0, 0, Ctx::FlowOut, "'a\u{85}'", 9),
    ("é\n--- 'b' ---", 7, 0, Ctx::FlowOut, "b", 10),
];

/// Double quoted scalars have escapes and escaped breaks.
static DOUBLE: [Flow; 14] = [
    ("\"a\\\n  b\"", 0, 0, Ctx::FlowOut, "ab", 8),
    (
        "\"\\x41\\u00e9\\/\\e\" ",
        0,
        0,
        Ctx::FlowOut,
        "Aé/\u{1B}",
        16,
    ),
    ("\"a \n  b\\\n  c\"", 0, 0, Ctx::FlowOut, "a bc", 13),
    ("\"\"", 0, 0, Ctx::BlockKey, "", 2),
    ("\"a b\"c", 0, 0, Ctx::FlowKey, "a b", 5),
    ("\"a \\\n\n\n b\"", 0, 0, Ctx::FlowOut, "a \n\nb", 10),
    ("\"\\ \n b\\\t\"", 0, 0, Ctx::FlowOut, "  b\t", 9),
    ("\"a\n\n b\"", 0, 1, Ctx::FlowIn, "a\nb", 7),
    (
        "\"\\0\\a\\b\\t\\n\\v\\f\\r\"",
        0,
        0,
        Ctx::BlockKey,
        "\0\u{7}\u{8}\t\n\u{B}\u{C}\r",
        18,
    ),
    (
        "\"\\\"\\\\\\N\\_\\L\\P\"",
        0,
        0,
        Ctx::BlockKey,
        "\"\\\u{85}\u{A0}\u{2028}\u{2029}",
        14,
    ),
    (
        "\"\\U0001F600\\uFeFf\"",
        0,
        0,
        Ctx::BlockKey,
        "\u{1F600}\u{FEFF}",
        18,
    ),
    ("\"\\\n b\"", 0, 0, Ctx::FlowOut, "b", 6),
    ("\"a\\\n \"", 0, 1, Ctx::FlowOut, "a", 6),
    ("\"a\n --- b\"", 0, 1, Ctx::FlowOut, "a --- b", 10),
];

#[test]
fn flow_scalars_are_read(rt: HostRuntime) -> Result<(), Fail> {
    let tables: [(Call, &[Flow]); 3] = [
        (Call::Plain, &PLAIN),
        (Call::Single, &SINGLE),
        (Call::Double, &DOUBLE),
    ];
    for (call, table) in tables {
        for row in table {
            is_read(&rt, call, row)?;
        }
    }
    Ok(())
}

/// What begins no plain scalar is refused.
/// What no plain scalar begins.
static NO_PLAIN: [Refused; 10] = [
    ("", 0, 0, Ctx::FlowIn, "4 Syntax at byte 0"),
    ("... a", 0, 0, Ctx::FlowIn, "4 Syntax at byte 0"),
    ("---", 0, 0, Ctx::FlowIn, "4 Syntax at byte 0"),
    ("- a", 0, 0, Ctx::FlowIn, "4 Syntax at byte 0"),
    ("#a", 0, 0, Ctx::FlowIn, "4 Syntax at byte 0"),
    ("?", 0, 0, Ctx::FlowIn, "4 Syntax at byte 0"),
    (",a", 0, 0, Ctx::FlowIn, "4 Syntax at byte 0"),
    ("\n", 0, 0, Ctx::FlowIn, "4 Syntax at byte 0"),
    ("\u{FEFF}%a", 0, 0, Ctx::FlowIn, "4 Syntax at byte 3"),
    ("\u{FEFF}", 0, 0, Ctx::FlowIn, "4 Syntax at byte 3"),
];

/// Single quoted scalars are refused where they break off.
/// The last breaks in a key.
static NO_SINGLE: [Refused; 9] = [
    ("'a", 0, 1, Ctx::FlowOut, "4 Syntax at byte 2"),
    ("'a\n... b'", 0, 1, Ctx::FlowOut, "4 Syntax at byte 3"),
    ("'a''", 0, 1, Ctx::FlowOut, "4 Syntax at byte 4"),
    ("a", 0, 1, Ctx::FlowOut, "4 Syntax at byte 0"),
    ("\u{FEFF}a", 0, 1, Ctx::FlowOut, "4 Syntax at byte 3"),
    ("'a\nb'", 0, 1, Ctx::FlowOut, "4 Syntax at byte 3"),
    ("'a\n\tb'", 0, 1, Ctx::FlowOut, "5 Tab at byte 3"),
    ("'a\n\n \n", 0, 1, Ctx::FlowOut, "4 Syntax at byte 6"),
    ("'a \nb'", 0, 0, Ctx::FlowKey, "4 Syntax at byte 3"),
];

/// Double quoted scalars are refused where they break off.
/// The last two break in a key.
static NO_DOUBLE: [Refused; 15] = [
    ("\"abc", 0, 1, Ctx::FlowOut, "4 Syntax at byte 4"),
    ("\u{FEFF}a", 0, 1, Ctx::FlowOut, "4 Syntax at byte 3"),
    ("\"\\ud800\"", 0, 1, Ctx::FlowOut, "8 BadEscape at byte 1"),
    ("\"\\q\"", 0, 1, Ctx::FlowOut, "8 BadEscape at byte 1"),
    ("\"\\x4g\"", 0, 1, Ctx::FlowOut, "8 BadEscape at byte 1"),
    ("\"a\\", 0, 1, Ctx::FlowOut, "8 BadEscape at byte 2"),
    ("\"\\u12", 0, 1, Ctx::FlowOut, "8 BadEscape at byte 1"),
    ("\"\\\n \\\n b\"", 0, 1, Ctx::FlowOut, "4 Syntax at byte 5"),
    ("\"a\n \\\n b\"", 0, 1, Ctx::FlowOut, "4 Syntax at byte 5"),
    ("\"a\n\tb\"", 0, 1, Ctx::FlowOut, "5 Tab at byte 3"),
    ("\"a\\\n\tb\"", 0, 1, Ctx::FlowOut, "5 Tab at byte 4"),
    ("\"a\n--- b\"", 0, 1, Ctx::FlowOut, "4 Syntax at byte 3"),
    (
        "\u{FEFF}\"\\q\"",
        0,
        1,
        Ctx::FlowOut,
        "8 BadEscape at byte 4",
    ),
    ("\"a \nb\"", 0, 0, Ctx::BlockKey, "4 Syntax at byte 3"),
    ("\"a \\\nb\"", 0, 0, Ctx::FlowKey, "4 Syntax at byte 4"),
];

/// Escapes of no character are refused.
/// Escapes of surrogates and of numbers past the last character.
static NO_CHARACTER: [Refused; 4] = [
    (
        "\"\\U00110000\"",
        0,
        1,
        Ctx::FlowOut,
        "8 BadEscape at byte 1",
    ),
    (
        "\"\\UFFFFFFFF\"",
        0,
        1,
        Ctx::FlowOut,
        "8 BadEscape at byte 1",
    ),
    ("\"\\uDFFF\"", 0, 1, Ctx::FlowOut, "8 BadEscape at byte 1"),
    (
        "\"\\U0000d800\"",
        0,
        1,
        Ctx::FlowOut,
        "8 BadEscape at byte 1",
    ),
];

#[test]
fn flow_scalars_are_refused(rt: HostRuntime) -> Result<(), Fail> {
    let tables: [(Call, &[Refused]); 4] = [
        (Call::Plain, &NO_PLAIN),
        (Call::Single, &NO_SINGLE),
        (Call::Double, &NO_DOUBLE),
        (Call::Double, &NO_CHARACTER),
    ];
    for (call, table) in tables {
        for row in table {
            is_refused(&rt, call, row)?;
        }
    }
    Ok(())
}

/// Whether a text's scalar is borrowed from it.
fn is_borrowed(alloc: Global, call: Call, text: &str) -> Result<bool, Fail> {
    let (content, _) = read_flow(alloc, call, text, 0, 0, Ctx::FlowOut)?;
    Ok(matches!(content, CowStr::Borrowed("a b")))
}

#[test]
fn one_line_as_it_stands_is_borrowed(rt: HostRuntime) -> Result<(), Fail> {
    for (call, text) in [
        (Call::Plain, "a b: c"),
        (Call::Single, "'a b'"),
        (Call::Double, "\"a b\""),
    ] {
        assert!(rt; is_borrowed(rt.alloc(), call, text)?, "{text}");
    }
    Ok(())
}
