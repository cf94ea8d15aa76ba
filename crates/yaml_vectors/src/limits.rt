//! What stands at the limits of an input, a text, a depth and a height.
use crate::rows::answers;
use std::alloc::Global;
use std::process::Abort;
use std::test::Fail;

/// `--- `, as many opening brackets, the inner text, and as many closing ones.
fn nested(alloc: Global, depth: usize, inner: &str) -> Result<String, Fail> {
    let mut text = "--- ".to_string(alloc)?;
    for _ in 0..depth {
        text.push('[')?;
    }
    text.push_str(inner)?;
    for _ in 0..depth {
        text.push(']')?;
    }
    Ok(text)
}

/// `--- "`, as many letters, and a quote.
fn letters(alloc: Global, count: usize) -> Result<String, Fail> {
    let mut text = "--- \"".to_string(alloc)?;
    for _ in 0..count {
        text.push('a')?;
    }
    text.push('"')?;
    Ok(text)
}

/// Asserts that a text that lacks its last line feed alone has itself with it.
fn is_nearly_own<T: Abort + AllocGlobal>(rt: &T, shows: &str, text: String) -> Result<(), Fail> {
    let mut wanted = text.as_str().to_string(rt.alloc())?;
    wanted.push('\n')?;
    answers(rt, shows, text.as_bytes(), wanted.as_str())
}

/// `[`, as many copies of an item, and `]`.
fn copies(alloc: Global, item: &str, width: usize) -> Result<String, Fail> {
    let mut text = "[".to_string(alloc)?;
    for place in 0..width {
        if place > 0 {
            text.push_str(", ")?;
        }
        text.push_str(item)?;
    }
    text.push(']')?;
    Ok(text)
}

/// A sequence of `count` items: the first has `width` scalars, each other as many aliases of the
/// one before it.
fn linked(alloc: Global, count: usize, width: usize) -> Result<String, Fail> {
    let mut item = copies(alloc, "\"x\"", width)?;
    let mut text = format!(in alloc; "--- [&n0 {item}")?;
    for n in 1..count {
        let before = n - 1;
        let alias = format!(in alloc; "*n{before}")?;
        item = copies(alloc, alias.as_str(), width)?;
        let part = format!(in alloc; ", &n{n} {item}")?;
        text.push_str(part.as_str())?;
    }
    text.push(']')?;
    Ok(text)
}

/// The canonical text of such a sequence: its last item has no later equal.
fn linked_text(alloc: Global, count: usize, width: usize) -> Result<String, Fail> {
    let mut item = copies(alloc, "\"x\"", width)?;
    let mut text = "--- [".to_string(alloc)?;
    for n in 1..count {
        let part = format!(in alloc; "&a{n} {item}, ")?;
        text.push_str(part.as_str())?;
        let alias = format!(in alloc; "*a{n}")?;
        item = copies(alloc, alias.as_str(), width)?;
    }
    text.push_str(item.as_str())?;
    text.push_str("]\n")?;
    Ok(text)
}

/// Asserts that such a sequence has its canonical text.
fn is_accepted<T: Abort + AllocGlobal>(rt: &T, count: usize, width: usize) -> Result<(), Fail> {
    let input = linked(rt.alloc(), count, width)?;
    let want = linked_text(rt.alloc(), count, width)?;
    answers(rt, "linked", input.as_bytes(), want.as_str())
}

/// Asserts that such a sequence is too high.
fn is_too_high<T: Abort + AllocGlobal>(rt: &T, count: usize, width: usize) -> Result<(), Fail> {
    let input = linked(rt.alloc(), count, width)?;
    answers(rt, "linked", input.as_bytes(), "18 TooHigh in document 0")
}

/// Aliases may double 1,022 times, and count in the height.
#[test]
fn aliases_are_1_022_high_at_most(rt: HostRuntime) -> Result<(), Fail> {
    is_accepted(&rt, 14, 2)?;
    for width in [1, 2] {
        is_accepted(&rt, 1022, width)?;
        is_too_high(&rt, 1023, width)?;
    }
    Ok(())
}

#[test]
fn brackets_nest_to_1_024(rt: HostRuntime) -> Result<(), Fail> {
    let alloc = rt.alloc();
    for (depth, inner) in [(1023, "\"x\""), (1024, "")] {
        is_nearly_own(&rt, "brackets", nested(alloc, depth, inner)?)?;
    }
    for (depth, inner, answer) in [
        (1024, "\"x\"", "18 TooHigh in document 0"),
        (1025, "", "7 TooDeep at byte 1028"),
    ] {
        let high = nested(alloc, depth, inner)?;
        answers(&rt, "brackets", high.as_bytes(), answer)?;
    }
    Ok(())
}

#[test]
fn texts_have_67_108_864_bytes_at_most(rt: HostRuntime) -> Result<(), Fail> {
    let alloc = rt.alloc();
    is_nearly_own(&rt, "the longest text", letters(alloc, 67_108_857)?)?;
    let long = letters(alloc, 67_108_858)?;
    answers(&rt, "too long a text", long.as_bytes(), "20 TextTooLong")?;
    let mut input = Vec::new(alloc);
    for _ in 0..67_108_864u32 {
        input.push(0xFFu8)?;
    }
    answers(
        &rt,
        "the longest input",
        input.as_slice(),
        "2 NotUtf8 at byte 0",
    )?;
    input.push(0xFF)?;
    answers(&rt, "too long an input", input.as_slice(), "1 TooLong")
}
