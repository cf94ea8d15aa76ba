//! How a row is judged.
use std::borrow::CowStr;
use std::process::Abort;
use std::test::Fail;
use yaml_core::{CoreFault, PlainKind, plain_kind, resolve};
use yaml_text::event::{EventTag, Style};

/// How a scalar is given: plain or in quotes without a tag, else in quotes with this tag.
#[derive(Clone, Copy)]
pub enum Given {
    Plain,
    Quoted,
    /// The lone `!`, on a plain scalar.
    Lone,
    Null,
    Bool,
    Int,
    Float,
    Str,
    Seq,
    Map,
    /// `!x`.
    Own,
}

/// What it is.
#[derive(Clone, Copy)]
pub enum Is {
    Null,
    Bool,
    Int,
    Float,
    Str,
    Own,
    WrongKind,
    BadContent,
    IntRange,
    FloatRange,
}

/// A scalar, and what it resolves to, with its canonical content.
pub struct Row {
    pub given: Given,
    pub text: &'static str,
    pub is: Is,
    pub content: &'static str,
}

impl Given {
    fn tag<'a>(self) -> EventTag<'a> {
        match self {
            Given::Plain | Given::Quoted => EventTag::None,
            Given::Lone => EventTag::NonSpecific,
            Given::Null => EventTag::Full(CowStr::Borrowed("tag:yaml.org,2002:null")),
            Given::Bool => EventTag::Full(CowStr::Borrowed("tag:yaml.org,2002:bool")),
            Given::Int => EventTag::Full(CowStr::Borrowed("tag:yaml.org,2002:int")),
            Given::Float => EventTag::Full(CowStr::Borrowed("tag:yaml.org,2002:float")),
            Given::Str => EventTag::Full(CowStr::Borrowed("tag:yaml.org,2002:str")),
            Given::Seq => EventTag::Full(CowStr::Borrowed("tag:yaml.org,2002:seq")),
            Given::Map => EventTag::Full(CowStr::Borrowed("tag:yaml.org,2002:map")),
            Given::Own => EventTag::Full(CowStr::Borrowed("!x")),
        }
    }

    fn style(self) -> Style {
        match self {
            Given::Plain | Given::Lone => Style::Plain,
            _ => Style::Double,
        }
    }
}

impl Is {
    /// The tag, or the message of the fault.
    fn name(self) -> &'static str {
        match self {
            Is::Null => "tag:yaml.org,2002:null",
            Is::Bool => "tag:yaml.org,2002:bool",
            Is::Int => "tag:yaml.org,2002:int",
            Is::Float => "tag:yaml.org,2002:float",
            Is::Str => "tag:yaml.org,2002:str",
            Is::Own => "!x",
            Is::WrongKind => "WrongKind",
            Is::BadContent => "BadContent",
            Is::IntRange => "IntRange",
            Is::FloatRange => "FloatRange",
        }
    }
}

/// The message of a fault.
fn message(fault: CoreFault) -> &'static str {
    match fault {
        CoreFault::WrongKind => "WrongKind",
        CoreFault::BadContent => "BadContent",
        CoreFault::IntRange => "IntRange",
        CoreFault::FloatRange => "FloatRange",
        CoreFault::OutOfMemory => "OutOfMemory",
    }
}

/// Asserts what the scalar of the row resolves to.
pub fn check<T: Abort + AllocGlobal>(rt: &T, row: &Row) -> Result<(), Fail> {
    gives(rt, row.given, row.text, row.is, row.content)
}

/// Asserts what a scalar resolves to.
pub fn gives<T: Abort + AllocGlobal>(
    rt: &T,
    given: Given,
    text: &str,
    is: Is,
    content: &str,
) -> Result<(), Fail> {
    let tag = given.tag();
    match resolve(rt.alloc(), &tag, given.style(), text) {
        Ok(scalar) => {
            let found = scalar.tag.as_str();
            let got = scalar.content.as_str();
            assert!(rt;
                found == is.name() && got == content,
                "{text}: {found} {got}"
            );
        }
        Err(fault) => {
            let found = message(fault);
            assert!(rt; found == is.name(), "{text}: {found}");
        }
    }
    Ok(())
}

/// Asserts the kind of a plain text.
pub fn is_kind<T: Abort>(rt: &T, text: &str, kind: PlainKind) {
    assert_eq!(rt; plain_kind(text), kind, "{text}");
}
