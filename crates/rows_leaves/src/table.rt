//! The table of patterns: each at its shortest, and its nearest misses.
use crate::core_rows::is_kind;
use std::process::Abort;
use yaml_core::PlainKind;

static NULLS: [&str; 5] = ["", "~", "null", "Null", "NULL"];

static BOOLS: [&str; 6] = ["true", "True", "TRUE", "false", "False", "FALSE"];

static INTS: [&str; 14] = [
    "0", "7", "-0", "+0", "-5", "+12", "012", "0o0", "0o17", "0x0", "0x1F", "0xabcdef", "0xABCDEF",
    "00",
];

static FLOATS: [&str; 24] = [
    "0.", ".0", "1.0", "+.5", "-.5", "1e3", "1E3", "1e+3", "1e-3", "1.e3", ".5e1", "+1.5E-10",
    ".inf", ".Inf", ".INF", "+.inf", "-.Inf", "+.INF", ".nan", ".NaN", ".NAN", "00.00", "1e0",
    "1e00",
];

static NUMBER_MISSES: [&str; 32] = [
    ".", "+", "-", "+.", "-.", ".e1", "+.e1", "1e", "1e+", "1e-", "1.e", "e1", "0x", "0o", "0o8",
    "0O7", "0X1", "+0x1", "-0o7", "1_000", "1,0", "1.2.3", "1e1.0", "1e1e1", "--1", "+-1", "1+",
    "0xg", "0b1", "12a", "1 ", " 1",
];

static WORD_MISSES: [&str; 24] = [
    ".INf",
    ".iNF",
    ".iNf",
    ".Nan",
    ".nAN",
    ".NaNs",
    "-.nan",
    "+.nan",
    "..inf",
    ".infinity",
    "inf",
    "nan",
    "~~",
    "Nul",
    "nul",
    "nulls",
    "nULL",
    "NUll",
    "tru",
    "tRUE",
    "TRue",
    "falsey",
    "FALSe",
    "yes",
];

fn all_are<T: Abort>(rt: &T, texts: &[&str], kind: PlainKind) {
    for text in texts {
        is_kind(rt, text, kind);
    }
}

#[test]
fn patterns_have_their_kind(rt: HostRuntime) {
    let tables: [(&[&str], PlainKind); 6] = [
        (&NULLS, PlainKind::Null),
        (&BOOLS, PlainKind::Bool),
        (&INTS, PlainKind::Int),
        (&FLOATS, PlainKind::Float),
        (&NUMBER_MISSES, PlainKind::Str),
        (&WORD_MISSES, PlainKind::Str),
    ];
    for (texts, kind) in tables {
        all_are(&rt, texts, kind);
    }
}
