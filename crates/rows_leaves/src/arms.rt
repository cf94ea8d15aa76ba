//! Texts that stand for themselves are lent, tags too.
use std::borrow::CowStr;
use std::test::Fail;
use yaml_core::resolve;
use yaml_text::event::{EventTag, Style};

static LENT: [&str; 10] = [
    "abc", "", "1_000", "12", "+12", "0012", "-12", "null", "False", "-.inf",
];

#[test]
fn plain_texts_are_lent(rt: HostRuntime) -> Result<(), Fail> {
    for text in &LENT {
        let answer = resolve(rt.alloc(), &EventTag::None, Style::Plain, text);
        let lent =
            matches!(&answer, Ok(scalar) if matches!(scalar.content, CowStr::Borrowed(_)) && matches!(scalar.tag, CowStr::Borrowed(_)));
        assert!(rt; lent, "{text}");
    }
    Ok(())
}

#[test]
fn an_owned_tag_is_lent(rt: HostRuntime) -> Result<(), Fail> {
    let tag = EventTag::Full(CowStr::Owned(String::from_str(rt.alloc(), "!x")?));
    let answer = resolve(rt.alloc(), &tag, Style::Double, "a b");
    let lent =
        matches!(&answer, Ok(scalar) if matches!(scalar.content, CowStr::Borrowed(_)) && matches!(scalar.tag, CowStr::Borrowed(_)));
    assert!(rt; lent);
    Ok(())
}
