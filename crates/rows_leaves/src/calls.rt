//! Lines of a text, and long texts.
use std::test::Fail;
use yaml_unified::{pieces_of, put_script, script_of};

/// How many lines a long text has.
const LINES: usize = 5_000;

#[test]
fn lines_have_their_parts(rt: HostRuntime) -> Result<(), Fail> {
    let pieces = pieces_of(rt.alloc(), "a  \n\nb\na  \na ")?;
    let mut got = String::new(rt.alloc());
    for piece in &pieces {
        let (line, spaces, has_end) = (piece.line, piece.spaces, piece.has_end);
        write!(got, "[{line}|{spaces}|{has_end}]")?;
    }
    assert_eq!(rt;
        got.as_str(),
        "[a|  |true][||true][b||true][a|  |true][a| |false]"
    );
    Ok(())
}

#[test]
fn equal_lines_are_the_same(rt: HostRuntime) -> Result<(), Fail> {
    let pieces = pieces_of(rt.alloc(), "a \nb \na \na\na ")?;
    let mut got = String::new(rt.alloc());
    if let Some(first) = pieces.first() {
        for piece in &pieces {
            let is_same = first.is_same(piece);
            write!(got, "{is_same} ")?;
        }
    }
    assert_eq!(rt; got.as_str(), "true false true false false ");
    Ok(())
}

/// A line among thousands, which is another one in the middle.
#[test]
fn one_line_of_many_is_changed(rt: HostRuntime) -> Result<(), Fail> {
    let mut left = String::new(rt.alloc());
    let mut right = String::new(rt.alloc());
    for number in 0..LINES {
        let line = number % 7;
        write!(left, "line {line}\n")?;
        if number == 2_500 {
            right.push_str("other\n")?;
        } else {
            write!(right, "line {line}\n")?;
        }
    }
    let edits = script_of(rt.alloc(), left.as_str(), right.as_str())?;
    let mut changes = 0usize;
    for edit in &edits {
        if edit.is_change() {
            changes = changes.saturating_add(1);
        }
    }
    assert_eq!(rt; changes, 2);
    let mut got = String::new(rt.alloc());
    put_script(&mut got, &edits, 0, false)?;
    assert_eq!(rt; got.as_str(), "\t-line 1\n\t+other\n");
    Ok(())
}
