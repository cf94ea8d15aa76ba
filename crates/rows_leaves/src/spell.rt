//! Spellings, and their lengths.
use std::alloc::Global;
use std::test::Fail;
use yaml_scalar::spell::{spell_into, spelled_len};

/// A text, and how it is spelled.
static SPELLINGS: [(&str, &str); 5] = [
    ("", "\"\""),
    ("a\u{85}", "\"a\\x85\""),
    ("\u{FEFF}", "\"\\uFEFF\""),
    (
        "a \"b\"\\\n\t\r~\u{7F}\u{A0}é\u{2028}\u{1F600}",
        "\"a \\\"b\\\"\\\\\\n\\t\\x0D~\\x7F\u{A0}é\u{2028}\u{1F600}\"",
    ),
    (
        "\0\u{1B}\u{9F}\u{FFFE}\u{FFFF}\u{E000}\u{FFFD}",
        "\"\\x00\\x1B\\x9F\\uFFFE\\uFFFF\u{E000}\u{FFFD}\"",
    ),
];

/// What is put after a beginning, and how long it is said to be.
fn spelled(alloc: Global, text: &str) -> Result<String, Fail> {
    let mut out = "x ".to_string(alloc)?;
    spell_into(text, &mut out)?;
    let len = spelled_len(text);
    Ok(format!(in alloc; "{out} {len}")?)
}

#[test]
fn spellings_escape_what_does_not_stand_for_itself(rt: HostRuntime) -> Result<(), Fail> {
    for (text, spelling) in &SPELLINGS {
        let len = spelling.len();
        let want = format!(in rt.alloc(); "x {spelling} {len}")?;
        let got = spelled(rt.alloc(), text)?;
        assert_eq!(rt; got.as_str(), want.as_str());
    }
    Ok(())
}

#[test]
fn lengths_count_the_quotes_and_the_bytes(rt: HostRuntime) {
    assert_eq!(rt; (spelled_len("a\u{85}"), spelled_len("\u{FEFF}")), (7, 8));
}
