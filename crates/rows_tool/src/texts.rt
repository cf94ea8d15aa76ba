//! Texts that are too long to be written out.
use std::alloc::Global;
use std::test::Fail;

/// A text so many times between two others.
pub fn many(
    alloc: Global,
    front: &str,
    count: usize,
    text: &str,
    back: &str,
) -> Result<String, Fail> {
    let mut all = front.to_string(alloc)?;
    for _ in 0..count {
        all.push_str(text)?;
    }
    all.push_str(back)?;
    Ok(all)
}
