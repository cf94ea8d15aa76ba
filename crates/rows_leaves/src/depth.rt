//! Nesting (RFC 8259, 9): the only bound is memory.
use std::test::Fail;
use yaml_json::is_json;

/// How deep the texts nest.
const LEVELS: usize = 100_000;

#[test]
fn a_hundred_thousand_levels_are_read(rt: HostRuntime) -> Result<(), Fail> {
    let mut text = String::new(rt.alloc());
    text.push_str("[")?;
    for _ in 0..LEVELS {
        text.push_str("{\"a\":[")?;
    }
    assert!(rt; !is_json(rt.alloc(), text.as_str())?);
    for _ in 0..LEVELS {
        text.push_str("]}")?;
    }
    assert!(rt; !is_json(rt.alloc(), text.as_str())?);
    text.push_str("]")?;
    assert!(rt; is_json(rt.alloc(), text.as_str())?);
    text.push_str("]")?;
    assert!(rt; !is_json(rt.alloc(), text.as_str())?);
    Ok(())
}
