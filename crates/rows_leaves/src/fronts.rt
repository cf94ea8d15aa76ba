//! Fronts of letters of each length about 64 bytes, up to which they are tested one by one, and about multiples of sixteen, by
//! which they are tested together.
use crate::scalar_rows::{Call, read_flow};
use std::alloc::Global;
use std::process::Abort;
use std::test::Fail;
use yaml_text::context::Ctx;

/// Which call reads the letters, its context, what stands before and behind them, what of that the content has, and how many bytes
/// behind them are read.
type Front = (Call, Ctx, &'static str, &'static str, &'static str, usize);

static FRONTS: [Front; 12] = [
    (Call::Plain, Ctx::FlowOut, "", "", "", 0),
    (Call::Plain, Ctx::FlowOut, "", ": b", "", 0),
    (Call::Plain, Ctx::FlowOut, "", " #b", "", 0),
    (Call::Plain, Ctx::FlowOut, "", "#b: c", "#b", 2),
    (Call::Plain, Ctx::FlowOut, "", ",b", ",b", 2),
    (Call::Plain, Ctx::FlowIn, "", ",b", "", 0),
    (Call::Plain, Ctx::FlowOut, "", "é b", "é b", 4),
    (Call::Plain, Ctx::FlowOut, "", "\nb", " b", 2),
    (Call::Single, Ctx::FlowOut, "'", "' b", "", 1),
    (Call::Single, Ctx::FlowOut, "'", "\"''\\b' c", "\"'\\b", 6),
    (Call::Double, Ctx::FlowOut, "\"", "\" b", "", 1),
    (Call::Double, Ctx::FlowOut, "\"", "\\n'é\" b", "\n'é", 6),
];

/// So many letters, and what stands round them.
fn letters(alloc: Global, before: &str, count: usize, behind: &str) -> Result<String, Fail> {
    let mut text = String::from_str(alloc, before)?;
    for _ in 0..count {
        text.push('a')?;
    }
    text.push_str(behind)?;
    Ok(text)
}

/// Asserts that a front of so many letters is read to its end, and what goes on behind it.
fn is_whole<T: Abort + AllocGlobal>(rt: &T, front: &Front, count: usize) -> Result<(), Fail> {
    let (call, context, before, behind, content, read) = *front;
    let text = letters(rt.alloc(), before, count, behind)?;
    let want = letters(rt.alloc(), "", count, content)?;
    let (got, end) = read_flow(rt.alloc(), call, text.as_str(), 0, 0, context)?;
    assert_eq!(rt; got.as_str(), want.as_str(), "{text}");
    let stop = before.len().saturating_add(count).saturating_add(read);
    assert_eq!(rt; end, stop, "{text}");
    Ok(())
}

#[test]
fn fronts_of_each_length_are_read_whole(rt: HostRuntime) -> Result<(), Fail> {
    for front in &FRONTS {
        for count in 1..=144 {
            is_whole(&rt, front, count)?;
        }
    }
    Ok(())
}
