//! How a row is judged.
use std::alloc::Global;
use std::process::Abort;
use std::test::Fail;
use yaml_mark::comments::skip_comments;
use yaml_mark::directives::read_directives;
use yaml_mark::handles::Handles;
use yaml_mark::name::read_name;
use yaml_mark::tag::read_tag;
use yaml_text::chars::Chars;
use yaml_text::event::EventTag;
use yaml_text::fault::Fault;
use yaml_text::lines::starts_line;
use yaml_text::places::{accept, is_border};

/// Which call a row is of.
#[derive(Clone, Copy)]
pub enum Call {
    Comments,
    Directives,
    Name,
    Tag,
}

/// A text, the place in it, and what is read there and where it ends, or the message of the fault.
pub type Row = (&'static str, usize, &'static str);

/// The handles of the directives that a text begins with, and their end.
fn handles_of<'a>(
    alloc: Global,
    source: &Chars<'a>,
) -> Result<Option<(Handles<'a>, usize)>, Fault> {
    if !is_border(source, 0) {
        return Ok(None);
    }
    if !starts_line(source, 0) {
        return Ok(None);
    }
    match accept(source, 0, '%') {
        None => Ok(None),
        Some(_) => Ok(Some(read_directives(alloc, source, 0)?)),
    }
}

/// The tag at a border, by the handles that the text begins with.
pub fn tag_at<'a>(
    alloc: Global,
    source: &Chars<'a>,
    at: usize,
) -> Result<(EventTag<'a>, usize), Fault> {
    if !is_border(source, at) {
        return Err(Fault::TooLong);
    }
    match handles_of(alloc, source)? {
        None => read_tag(alloc, source, at, None),
        Some((handles, _)) => read_tag(alloc, source, at, Some(&handles)),
    }
}

/// What the call for tags answers, in words.
fn tag_told(alloc: Global, source: &Chars<'_>, at: usize) -> Result<String, Fail> {
    match tag_at(alloc, source, at) {
        Ok((tag, end)) => match tag {
            EventTag::Full(text) => Ok(format!(in alloc; "{text} ends at {end}")?),
            _ => Ok(format!(in alloc; "! ends at {end}")?),
        },
        Err(fault) => Ok(format!(in alloc; "{fault}")?),
    }
}

/// What the call for names answers, in words.
fn name_told(alloc: Global, source: &Chars<'_>, at: usize) -> Result<String, Fail> {
    if !is_border(source, at) {
        return Ok(String::new(alloc));
    }
    match read_name(alloc, source, at) {
        Ok((name, end)) => Ok(format!(in alloc; "{name} ends at {end}")?),
        Err(fault) => Ok(format!(in alloc; "{fault}")?),
    }
}

/// What the call for comments answers, in words.
fn comments_told(alloc: Global, source: &Chars<'_>, at: usize) -> Result<String, Fail> {
    if !is_border(source, at) {
        return Ok(String::new(alloc));
    }
    match skip_comments(source, at) {
        Some(end) => Ok(format!(in alloc; "ends at {end}")?),
        None => Ok(format!(in alloc; "none")?),
    }
}

/// What the call for directives answers, in words.
fn directives_told(alloc: Global, source: &Chars<'_>) -> Result<String, Fail> {
    match handles_of(alloc, source) {
        Ok(Some((_, end))) => Ok(format!(in alloc; "ends at {end}")?),
        Ok(None) => Ok(String::new(alloc)),
        Err(fault) => Ok(format!(in alloc; "{fault}")?),
    }
}

/// What the call answers, in words.
fn told(alloc: Global, call: Call, text: &str, at: usize) -> Result<String, Fail> {
    let source = Chars::read(text.as_bytes())?;
    match call {
        Call::Comments => comments_told(alloc, &source, at),
        Call::Directives => directives_told(alloc, &source),
        Call::Name => name_told(alloc, &source, at),
        Call::Tag => tag_told(alloc, &source, at),
    }
}

/// Asserts what a call answers.
pub fn answers<T: Abort + AllocGlobal>(rt: &T, call: Call, row: &Row) -> Result<(), Fail> {
    let (text, at, want) = *row;
    let got = told(rt.alloc(), call, text, at)?;
    assert_eq!(rt; got.as_str(), want, "{text}");
    Ok(())
}
