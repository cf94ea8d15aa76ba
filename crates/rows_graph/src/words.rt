//! Events written as words.
use std::alloc::{AllocError, Global};
use std::borrow::CowStr;
use yaml_text::event::{Event, EventTag, Style};

/// An anchor and a tag that stand before their node.
#[derive(Clone, Copy)]
struct Properties<'a> {
    anchor: Option<&'a str>,
    /// Nothing, `!`, or `!` and a decoded tag.
    tag: &'a str,
}

const NONE: Properties<'static> = Properties {
    anchor: None,
    tag: "",
};

fn anchor_of<'a>(properties: Properties<'a>) -> Option<CowStr<'a>> {
    match properties.anchor {
        None => None,
        Some(name) => Some(CowStr::Borrowed(name)),
    }
}

fn tag_of<'a>(properties: Properties<'a>) -> EventTag<'a> {
    match properties.tag.strip_prefix("!") {
        None => EventTag::None,
        Some("") => EventTag::NonSpecific,
        Some(tag) => EventTag::Full(CowStr::Borrowed(tag)),
    }
}

/// A scalar: `=` and a plain text, else a double-quoted text.
fn scalar<'a>(word: &'a str, properties: Properties<'a>) -> Event<'a> {
    let (style, text) = match word.strip_prefix("=") {
        None => (Style::Double, word),
        Some(text) => (Style::Plain, text),
    };
    Event::Scalar {
        anchor: anchor_of(properties),
        tag: tag_of(properties),
        style,
        text: CowStr::Borrowed(text),
    }
}

/// The event of a word with these properties.
fn event<'a>(word: &'a str, properties: Properties<'a>) -> Event<'a> {
    match word {
        "---" => Event::DocumentStart { explicit: true },
        "..." => Event::DocumentEnd { explicit: false },
        "[" => Event::SequenceStart {
            flow: true,
            anchor: anchor_of(properties),
            tag: tag_of(properties),
        },
        "]" => Event::SequenceEnd,
        "{" => Event::MappingStart {
            flow: false,
            anchor: anchor_of(properties),
            tag: tag_of(properties),
        },
        "}" => Event::MappingEnd,
        _ => match word.strip_prefix("*") {
            None => scalar(word, properties),
            Some(name) => Event::Alias {
                name: CowStr::Borrowed(name),
            },
        },
    }
}

/// The events of a stream, one for each nonempty word but `&anchor` and `!tag`, which stand before their
/// node. `---` and `...` begin and end a document.
pub fn events<'a>(alloc: Global, words: &'a str) -> Result<Vec<Event<'a>>, AllocError> {
    let mut events = Vec::new(alloc);
    events.push(Event::StreamStart)?;
    let mut properties = NONE;
    for word in words.split(' ') {
        if word.is_empty() {
            continue;
        }
        if let Some(name) = word.strip_prefix("&") {
            properties.anchor = Some(name);
        } else if word.starts_with("!") {
            properties.tag = word;
        } else {
            events.push(event(word, properties))?;
            properties = NONE;
        }
    }
    events.push(Event::StreamEnd)?;
    Ok(events)
}
