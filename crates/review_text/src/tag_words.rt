//! What is said of a node whose tag is not for it: of another kind of node (fault 14), or of a scalar with another text (15).
ghost use Rattle.std.specs.Prelude.{◌≡◌, ◌++◌, nat_lt, cond, length, codes, string_bytes, OnOk};
ghost use Rattle.yaml_text.specs.EventModel.{event_of};
ghost use Rattle.review_text.specs.TagWords.{bearers, accepted, short_name, tag_text, kind_words, content_shown, content_words, scalar_words, tag_words};

use crate::fronts::put_shown;
use crate::text::{CUT, front, put_all};
use std::alloc::AllocError;
use yaml_text::core_tag;
use yaml_text::event::{Event, EventTag};

/// What the tags of the core schema are for (YAML 1.2.2, 10.1 to 10.3).
#[tactic(auto, unfolding(crate::specs::TagWords::bearers, yaml_definitions::specs::model::Tag::core_tag))]
fn bearers(tag: &str) -> &'static str
    ensures { result.now ≡ bearers tag.now }
{
    if tag == core_tag::SEQ {
        "sequences"
    } else if tag == core_tag::MAP {
        "mappings"
    } else {
        "scalars"
    }
}

/// A text that a tag of the core schema takes (10.3.2).
#[tactic(auto, unfolding(crate::specs::TagWords::accepted, yaml_definitions::specs::model::Tag::core_tag))]
fn accepted(tag: &str) -> &'static str
    ensures { result.now ≡ accepted tag.now }
{
    if tag == core_tag::NULL {
        "write null, ~ or nothing"
    } else if tag == core_tag::BOOL {
        "write true or false"
    } else if tag == core_tag::INT {
        "write a whole number, as 12, -12, 0o14 or 0xC"
    } else if tag == core_tag::FLOAT {
        "write a number, as 12, 1.5, 1e3, .inf or .nan"
    } else {
        "write another text"
    }
}

/// What stands behind the prefix of the core schema, and any other tag whole.
fn short_name(tag: &str) -> &str
    ensures { result.now ≡ short_name tag.now }
{
    match tag.strip_prefix(core_tag::PREFIX) {
        Some(name) => name,
        None => tag,
    }
}

/// Writes the short form of a tag of the core schema between backticks.
fn put_tag(out: &mut String, tag: &str) -> Result<(), AllocError>
    ensures ok { OnOk result (string_bytes out.new ≡ string_bytes out.old ++ tag_text tag.now) }
{
    put_all(out, &["`!!", short_name(tag), "`"])
}

/// Says that a tag is not for this kind of node.
fn put_kind(out: &mut String, tag: &str, kind: &str) -> Result<(), AllocError>
    ensures ok { OnOk result (string_bytes out.new ≡ string_bytes out.old ++ kind_words tag.now kind.now) }
{
    put_tag(out, tag)?;
    out.push_str(" is for ")?;
    out.push_str(bearers(tag))?;
    out.push_str(", and this is a ")?;
    out.push_str(kind)?;
    Ok(())
}

/// What stands behind a text, of which so many bytes are shown.
fn mark_behind(shown: &str, text: &str) -> &'static str
    ensures { result.now ≡ cond (nat_lt (length shown.now) (length text.now)) (codes "...`") (codes "`") }
{
    if shown.len() < text.len() {
        "...`"
    } else {
        "`"
    }
}

/// Writes a text between backticks, a long one as far as it is shown.
fn put_shown_content(out: &mut String, text: &str) -> Result<(), AllocError>
    ensures ok { OnOk result (string_bytes out.new ≡ string_bytes out.old ++ content_shown text.now) }
{
    if text.len() == 0 {
        out.push_str("an empty text")?;
        return Ok(());
    }
    let shown = front(text, CUT);
    out.push_str("`")?;
    put_shown(out, shown)?;
    out.push_str(mark_behind(shown, text))?;
    Ok(())
}

/// Says that a scalar's text is none of its tag, and what would be one. A long text is cut.
fn put_content(out: &mut String, tag: &str, text: &str) -> Result<(), AllocError>
    ensures ok { OnOk result (string_bytes out.new ≡ string_bytes out.old ++ content_words tag.now text.now) }
{
    put_shown_content(out, text)?;
    out.push_str(" is no ")?;
    put_tag(out, tag)?;
    out.push_str(": ")?;
    out.push_str(accepted(tag))?;
    Ok(())
}

/// Says why a tag is not for a scalar of this text.
#[tactic(auto, unfolding(yaml_definitions::specs::model::Tag::core_tag))]
fn put_scalar_words(out: &mut String, tag: &str, text: &str) -> Result<(), AllocError>
    ensures ok { OnOk result (string_bytes out.new ≡ string_bytes out.old ++ scalar_words tag.now text.now) }
{
    if tag == core_tag::SEQ {
        return put_kind(out, tag, "scalar");
    }
    if tag == core_tag::MAP {
        return put_kind(out, tag, "scalar");
    }
    put_content(out, tag, text)
}

/// Writes why the tag of the node that an event begins is not for it. Nothing is written of an event without a tag, or with `!` alone.
///
/// # Errors
/// `OutOfMemory`
pub fn put_tag_words(out: &mut String, event: &Event<'_>) -> Result<(), AllocError>
    ensures ok { OnOk result (string_bytes out.new ≡ string_bytes out.old ++ tag_words (event_of event.now)) }
{
    match event {
        Event::SequenceStart {
            tag: EventTag::Full(tag),
            ..
        } => put_kind(out, tag.as_str(), "sequence"),
        Event::MappingStart {
            tag: EventTag::Full(tag),
            ..
        } => put_kind(out, tag.as_str(), "mapping"),
        Event::Scalar {
            tag: EventTag::Full(tag),
            text,
            ..
        } => put_scalar_words(out, tag.as_str(), text.as_str()),
        _ => Ok(()),
    }
}
