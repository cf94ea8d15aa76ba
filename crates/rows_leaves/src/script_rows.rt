//! How a test case is judged.
use std::process::Abort;
use std::test::Fail;
use yaml_unified::{put_script, script_of};

/// Two texts, and the changes from the left one to the right one as they are printed.
pub struct Row {
    pub left: &'static str,
    pub right: &'static str,
    pub context: usize,
    pub color: bool,
    pub printed: &'static str,
}

/// Asserts what is printed of two texts.
pub fn prints<T: Abort + AllocGlobal>(rt: &T, row: &Row) -> Result<(), Fail> {
    let edits = script_of(rt.alloc(), row.left, row.right)?;
    let mut got = String::new(rt.alloc());
    put_script(&mut got, &edits, row.context.min(1_000), row.color)?;
    assert_eq!(rt; got.as_str(), row.printed, "{} {}", row.left, row.right);
    Ok(())
}
