//! How a row is judged.
use std::alloc::Global;
use std::borrow::CowStr;
use std::process::Abort;
use std::test::Fail;
use yaml_scalar::block::{read_folded, read_literal};
use yaml_scalar::double::read_double;
use yaml_scalar::plain::read_plain;
use yaml_scalar::single::read_single;
use yaml_text::chars::Chars;
use yaml_text::context::Ctx;
use yaml_text::fault::Fault;
use yaml_text::places::is_border;

/// Which call reads a flow scalar.
#[derive(Clone, Copy)]
pub enum Call {
    Plain,
    Single,
    Double,
}

/// A text, the place in it, the least indentation and the context, with the content and the end that are read there.
pub type Flow = (&'static str, usize, i32, Ctx, &'static str, usize);

/// A text, the place in it, the least indentation and the context, with the message of the fault.
pub type Refused = (&'static str, usize, i32, Ctx, &'static str);

/// A text, the place in it and the parent's indentation, with the content and the end that are read there.
pub type Block = (&'static str, usize, i32, &'static str, usize);

/// A text, the place in it and the parent's indentation, with the message of the fault.
pub type NoBlock = (&'static str, usize, i32, &'static str);

/// What the call answers for a flow scalar. No row asks within a character or below no indentation.
pub fn read_flow<'a>(
    alloc: Global,
    call: Call,
    text: &'a str,
    at: usize,
    n: i32,
    context: Ctx,
) -> Result<(CowStr<'a>, usize), Fault> {
    let source = Chars::read(text.as_bytes())?;
    if !is_border(&source, at) || n < 0 {
        return Err(Fault::TooLong);
    }
    match call {
        Call::Plain => read_plain(alloc, &source, at, n, context),
        Call::Single => read_single(alloc, &source, at, n, context),
        Call::Double => read_double(alloc, &source, at, n, context),
    }
}

/// What the call for the style that stands there answers for a block scalar. The context is ignored.
fn read_block<'a>(
    alloc: Global,
    text: &'a str,
    at: usize,
    n: i32,
) -> Result<(CowStr<'a>, usize), Fault> {
    let source = Chars::read(text.as_bytes())?;
    if !is_border(&source, at) {
        Err(Fault::TooLong)
    } else if text.as_bytes().get(at) == Some(&b'>') {
        read_folded(alloc, &source, at, n, Ctx::BlockIn)
    } else {
        read_literal(alloc, &source, at, n, Ctx::FlowKey)
    }
}

/// A content and its end, or the message of a fault, in words.
fn told(alloc: Global, answer: Result<(CowStr<'_>, usize), Fault>) -> Result<String, Fail> {
    match answer {
        Ok((content, end)) => Ok(format!(in alloc; "{content} ends at {end}")?),
        Err(fault) => Ok(format!(in alloc; "{fault}")?),
    }
}

/// Asserts that a flow scalar is read.
pub fn is_read<T: Abort + AllocGlobal>(rt: &T, call: Call, row: &Flow) -> Result<(), Fail> {
    let (text, at, n, context, content, end) = *row;
    let want = format!(in rt.alloc(); "{content} ends at {end}")?;
    let got = told(
        rt.alloc(),
        read_flow(rt.alloc(), call, text, at, n, context),
    )?;
    assert_eq!(rt; got.as_str(), want.as_str(), "{text}");
    Ok(())
}

/// Asserts that no flow scalar is read.
pub fn is_refused<T: Abort + AllocGlobal>(rt: &T, call: Call, row: &Refused) -> Result<(), Fail> {
    let (text, at, n, context, message) = *row;
    let got = told(
        rt.alloc(),
        read_flow(rt.alloc(), call, text, at, n, context),
    )?;
    assert_eq!(rt; got.as_str(), message, "{text}");
    Ok(())
}

/// Asserts that a block scalar is read.
pub fn is_block<T: Abort + AllocGlobal>(rt: &T, row: &Block) -> Result<(), Fail> {
    let (text, at, n, content, end) = *row;
    let want = format!(in rt.alloc(); "{content} ends at {end}")?;
    let got = told(rt.alloc(), read_block(rt.alloc(), text, at, n))?;
    assert_eq!(rt; got.as_str(), want.as_str(), "{text}");
    Ok(())
}

/// Asserts that no block scalar is read.
pub fn is_no_block<T: Abort + AllocGlobal>(rt: &T, row: &NoBlock) -> Result<(), Fail> {
    let (text, at, n, message) = *row;
    let got = told(rt.alloc(), read_block(rt.alloc(), text, at, n))?;
    assert_eq!(rt; got.as_str(), message, "{text}");
    Ok(())
}
