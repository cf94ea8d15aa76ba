//! What a graph keeps of a scalar: the tag and the text of its event, moved, or what the core schema makes of them.
ghost use Rattle.std.specs.Prelude.{◌≡◌, Ok, MatchOption, MatchResult, IfOk, IfErr, IfSome, string_bytes};
ghost use Rattle.std.specs.Cow.{cow_str_bytes};
ghost use Rattle.yaml_definitions.specs.model.Tag.{str_tag};
ghost use Rattle.yaml_definitions.specs.model.Core.{resolve, by_table, by_tag};
ghost use Rattle.yaml_text.specs.EventModel.{written_of, style_of};
ghost use Rattle.yaml_core.specs.CoreAnswer.{RefusesScalar};

use std::alloc::{AllocError, Global};
use std::borrow::CowStr;
use yaml_core::scalar::{CoreFault, Scalar, by_table, resolve};
use yaml_text::core_tag;
use yaml_text::event::{EventTag, Style};

/// A tag of the core schema that an untagged scalar may have.
fn known_tag(tag: &str) -> Option<&'static str>
    ensures { IfSome result (λ known. known.now ≡ tag.now) }
{
    match tag {
        core_tag::STR => Some(core_tag::STR),
        core_tag::INT => Some(core_tag::INT),
        core_tag::BOOL => Some(core_tag::BOOL),
        core_tag::NULL => Some(core_tag::NULL),
        core_tag::FLOAT => Some(core_tag::FLOAT),
        _ => None,
    }
}

/// A written tag. One of the core schema takes no memory.
fn spared<'s>(tag: CowStr<'s>) -> CowStr<'s>
    ensures { cow_str_bytes result ≡ cow_str_bytes tag.entry }
{
    match known_tag(tag.as_str()) {
        Some(known) => CowStr::Borrowed(known),
        None => tag,
    }
}

/// A tag that is no longer lent. One of the core schema takes no memory.
fn kept_tag<'s>(alloc: Global, tag: CowStr<'_>) -> Result<CowStr<'s>, AllocError>
    ensures { IfOk result (λ kept. cow_str_bytes kept ≡ cow_str_bytes tag.entry) }
{
    if let Some(known) = known_tag(tag.as_str()) {
        return Ok(CowStr::Borrowed(known));
    }
    Ok(CowStr::Owned(tag.into_owned(alloc)?))
}

/// What was made of a text, no longer lent, where it is another text.
fn changed(alloc: Global, made: CowStr<'_>, given: &str) -> Result<Option<String>, CoreFault>
    ensures ok { IfOk result (λ other. MatchOption other (cow_str_bytes made.entry ≡ given.now) (λ t. string_bytes t ≡ cow_str_bytes made.entry)) }
    ensures err { IfErr result (λ fault. fault ≡ CoreFault.OutOfMemory) }
{
    if made.as_str() == given {
        return Ok(None);
    }
    match made.into_owned(alloc) {
        Ok(other) => Ok(Some(other)),
        Err(_) => Err(CoreFault::OutOfMemory),
    }
}

/// The other text, if there is one.
fn text_or<'s>(other: Option<String>, text: CowStr<'s>) -> CowStr<'s>
    ensures { MatchOption other (cow_str_bytes result ≡ cow_str_bytes text.entry) (λ t. cow_str_bytes result ≡ string_bytes t) }
{
    match other {
        None => text,
        Some(other) => CowStr::Owned(other),
    }
}

/// A text that stands for itself.
#[tactic(auto, unfolding(yaml_definitions::specs::model::Tag::core_tag))]
fn string<'s>(text: CowStr<'s>) -> Scalar<'s>
    ensures tag { cow_str_bytes result.tag ≡ str_tag }
    ensures content { cow_str_bytes result.content ≡ cow_str_bytes text.entry }
{
    Scalar {
        tag: CowStr::Borrowed(core_tag::STR),
        content: text,
    }
}

/// The scalar of an untagged plain text.
fn plain<'s>(alloc: Global, text: CowStr<'s>) -> Result<Scalar<'s>, CoreFault>
    ensures { MatchResult result (λ s. by_table (cow_str_bytes text.entry) ≡ Ok (cow_str_bytes s.tag, cow_str_bytes s.content)) (RefusesScalar (by_table (cow_str_bytes text.entry))) }
{
    if let CowStr::Borrowed(text) = text {
        return by_table(alloc, text);
    }
    let Scalar { tag, content } = by_table(alloc, text.as_str())?;
    let other = changed(alloc, content, text.as_str())?;
    match kept_tag(alloc, tag) {
        Ok(tag) => Ok(Scalar {
            tag,
            content: text_or(other, text),
        }),
        Err(_) => Err(CoreFault::OutOfMemory),
    }
}

/// The content of a text under a written tag, where it is another text.
#[tactic(auto, unfolding(yaml_definitions::specs::model::Core::resolve))]
fn content_under(
    alloc: Global,
    tag: &str,
    style: Style,
    text: &str,
) -> Result<Option<String>, CoreFault>
    ensures { MatchResult result (λ other. MatchOption other (by_tag tag.now text.now ≡ Ok (tag.now, text.now)) (λ t. by_tag tag.now text.now ≡ Ok (tag.now, string_bytes t))) (RefusesScalar (by_tag tag.now text.now)) }
{
    let written = EventTag::Full(CowStr::Borrowed(tag));
    let scalar = resolve(alloc, &written, style, text)?;
    changed(alloc, scalar.content, text)
}

/// The scalar of a text under a written tag.
fn tagged<'s>(
    alloc: Global,
    tag: CowStr<'s>,
    style: Style,
    text: CowStr<'s>,
) -> Result<Scalar<'s>, CoreFault>
    ensures { MatchResult result (λ s. by_tag (cow_str_bytes tag.entry) (cow_str_bytes text.entry) ≡ Ok (cow_str_bytes s.tag, cow_str_bytes s.content)) (RefusesScalar (by_tag (cow_str_bytes tag.entry) (cow_str_bytes text.entry))) }
{
    let other = content_under(alloc, tag.as_str(), style, text.as_str())?;
    Ok(Scalar {
        tag: spared(tag),
        content: text_or(other, text),
    })
}

/// The scalar of an event's tag, style and text, which are moved into it where it has them.
#[tactic(auto, unfolding(yaml_definitions::specs::model::Core::resolve))]
pub(crate) fn scalar_of<'s>(
    alloc: Global,
    tag: EventTag<'s>,
    style: Style,
    text: CowStr<'s>,
) -> Result<Scalar<'s>, CoreFault>
    ensures { MatchResult result (λ s. resolve (written_of tag.entry) (style_of style) (cow_str_bytes text.entry) ≡ Ok (cow_str_bytes s.tag, cow_str_bytes s.content)) (RefusesScalar (resolve (written_of tag.entry) (style_of style) (cow_str_bytes text.entry))) }
{
    match tag {
        EventTag::Full(tag) => tagged(alloc, tag, style, text),
        EventTag::NonSpecific => Ok(string(text)),
        EventTag::None => match style {
            Style::Plain => plain(alloc, text),
            Style::Single | Style::Double | Style::Literal | Style::Folded => Ok(string(text)),
        },
    }
}
