//! How a test case is judged.
use std::process::Abort;
use std::test::Fail;
use yaml_json::is_json;

/// A text, and whether it is JSON.
pub type Row = (&'static str, bool);

/// Asserts whether a text is JSON.
pub fn answers<T: Abort + AllocGlobal>(rt: &T, row: &Row) -> Result<(), Fail> {
    let (text, want) = *row;
    let got = is_json(rt.alloc(), text)?;
    assert_eq!(rt; got, want, "{text}");
    Ok(())
}
