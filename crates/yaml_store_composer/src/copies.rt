//! Texts and properties that are kept: parts of the text that is lent where they stand in it, else copies.
ghost use Rattle.std.specs.Prelude.{◌≡◌, IfOk, IfSome};
ghost use Rattle.std.specs.Bool.{OnTrue};
ghost use Rattle.std.specs.Option.{option_map};
ghost use Rattle.std.specs.Cow.{cow_str_bytes};
ghost use Rattle.yaml_text.specs.EventModel.{written_of};
ghost use Rattle.yaml_sink.specs.PropertyRules.{props_of};
ghost use Rattle.yaml_tree_builder.specs.BuilderLog.{IsOneAnchor, HasOwnTag};

use std::alloc::Global;
use std::borrow::CowStr;
use std::mem;
use yaml_sink::properties::{Given, Offsets, Properties};
use yaml_store::no_memory::NoMemory;
use yaml_text::event::EventTag;

/// The part of a text at this place, if it is the same as another text.
fn part_at<'s>(lent: &'s str, at: usize, text: &str) -> Option<&'s str>
    ensures { IfSome result (λ part. part.now ≡ text.now) }
{
    let end = at.checked_add(text.len())?;
    let part = lent.get(at..end)?;
    if part == text { Some(part) } else { None }
}

/// A text becomes a copy of another, in the room that it has.
#[inline(always)]
pub(crate) fn fill(alloc: Global, copy: &mut CowStr<'_>, text: &str) -> Result<(), NoMemory>
    ensures { IfOk result (λ _. cow_str_bytes copy.new ≡ text.now) }
{
    if let CowStr::Owned(room) = copy {
        room.clear();
        room.push_str(text)?;
        return Ok(());
    }
    let owned = String::from_str(alloc, text)?;
    *copy = CowStr::Owned(owned);
    Ok(())
}

/// A text that may be taken: the part at this place of the text that is lent, if it stands there, else the text itself if it is
/// one of its own, else a copy.
pub(crate) fn keep<'s>(
    alloc: Global,
    lent: &'s str,
    at: usize,
    text: &mut CowStr<'_>,
) -> Result<CowStr<'s>, NoMemory>
    ensures { IfOk result (λ kept. cow_str_bytes kept ≡ cow_str_bytes text.old) }
{
    if let Some(part) = part_at(lent, at, text.as_str()) {
        return Ok(CowStr::Borrowed(part));
    }
    match text {
        CowStr::Owned(owned) => Ok(CowStr::Owned(mem::replace(owned, String::new(alloc)))),
        CowStr::Borrowed(text) => Ok(CowStr::Owned(String::from_str(alloc, text)?)),
    }
}

/// A text becomes the same as another: the part at this place of the text that is lent, if it stands there, else a copy, in the
/// room that it has. One that was made is not looked for there, since it is seldom found.
fn write_over<'s>(
    alloc: Global,
    lent: &'s str,
    at: usize,
    copy: &mut CowStr<'s>,
    text: &CowStr<'_>,
) -> Result<(), NoMemory>
    ensures { IfOk result (λ _. cow_str_bytes copy.new ≡ cow_str_bytes text.now) }
{
    if let CowStr::Borrowed(part) = text {
        if let Some(part) = part_at(lent, at, part) {
            *copy = CowStr::Borrowed(part);
            return Ok(());
        }
    }
    fill(alloc, copy, text.as_str())
}

/// An anchor's name becomes the same as another.
fn write_over_anchor<'s>(
    alloc: Global,
    lent: &'s str,
    at: usize,
    copy: &mut Option<CowStr<'s>>,
    anchor: &Option<CowStr<'_>>,
) -> Result<(), NoMemory>
    ensures { IfOk result (λ _. option_map cow_str_bytes copy.new ≡ option_map cow_str_bytes anchor.now) }
{
    let Some(name) = anchor else {
        *copy = None;
        return Ok(());
    };
    let mut same = mem::replace(copy, None).unwrap_or(CowStr::Borrowed(""));
    write_over(alloc, lent, at, &mut same, name)?;
    *copy = Some(same);
    Ok(())
}

/// A tag becomes the same as another.
fn write_over_tag<'s>(
    alloc: Global,
    lent: &'s str,
    at: usize,
    copy: &mut EventTag<'s>,
    tag: &EventTag<'_>,
) -> Result<(), NoMemory>
    ensures { IfOk result (λ _. written_of copy.new ≡ written_of tag.now) }
{
    match tag {
        EventTag::None => *copy = EventTag::None,
        EventTag::NonSpecific => *copy = EventTag::NonSpecific,
        EventTag::Full(text) => {
            let mut same = match mem::replace(copy, EventTag::None) {
                EventTag::Full(room) => room,
                _ => CowStr::Borrowed(""),
            };
            write_over(alloc, lent, at, &mut same, text)?;
            *copy = EventTag::Full(same);
        }
    }
    Ok(())
}

/// Neither an anchor nor a tag yet.
fn no_given<'s>(alloc: Global) -> Result<Box<Given<'s>>, NoMemory> {
    let held = Box::new(
        alloc,
        Given {
            anchor: None,
            tag: EventTag::None,
            offsets: Offsets { anchor: 0, tag: 0 },
        },
    )?;
    Ok(held)
}

/// The same properties as a node's, in the room of others that are of no use any more: parts of the text that is lent where they
/// stand in it, else copies.
pub(crate) fn copy_over<'s>(
    alloc: Global,
    lent: &'s str,
    spare: Properties<'s>,
    properties: &Properties<'_>,
) -> Result<Properties<'s>, NoMemory>
    ensures { IfOk result (λ copy. props_of copy ≡ props_of properties.now) }
{
    let Some(given) = &properties.given else {
        return Ok(Properties::none());
    };
    let mut held = match spare.given {
        Some(held) => held,
        None => no_given(alloc)?,
    };
    let offsets = given.offsets;
    write_over_anchor(alloc, lent, offsets.anchor, &mut held.anchor, &given.anchor)?;
    write_over_tag(alloc, lent, offsets.tag, &mut held.tag, &given.tag)?;
    held.offsets = offsets;
    Ok(Properties { given: Some(held) })
}

/// Whether both are absent or have the same name.
fn same_anchor(one: &Option<CowStr<'_>>, two: &Option<CowStr<'_>>) -> bool
    ensures { OnTrue result (option_map cow_str_bytes one.now ≡ option_map cow_str_bytes two.now) }
{
    match (one, two) {
        (None, None) => true,
        (Some(one), Some(two)) => one.as_str() == two.as_str(),
        _ => false,
    }
}

/// Whether both are the same tag.
fn same_tag(one: &EventTag<'_>, two: &EventTag<'_>) -> bool
    ensures { OnTrue result (written_of one.now ≡ written_of two.now) }
{
    match (one, two) {
        (EventTag::None, EventTag::None) => true,
        (EventTag::NonSpecific, EventTag::NonSpecific) => true,
        (EventTag::Full(one), EventTag::Full(two)) => one.as_str() == two.as_str(),
        _ => false,
    }
}

/// Whether these are the same properties.
pub(crate) fn are_same(one: &Properties<'_>, two: &Properties<'_>) -> bool
    ensures { OnTrue result (props_of one.now ≡ props_of two.now) }
{
    match (&one.given, &two.given) {
        (None, None) => true,
        (Some(one), Some(two)) => {
            same_anchor(&one.anchor, &two.anchor) && same_tag(&one.tag, &two.tag)
        }
        _ => false,
    }
}

/// The name of an anchor, if there is one.
fn anchor_in<'p>(properties: &'p Properties<'_>) -> Option<&'p str>
    ensures { option_map (λ name. name.now) result ≡ (props_of properties.now).anchor }
{
    match &properties.given {
        None => None,
        Some(given) => match &given.anchor {
            None => None,
            Some(name) => Some(name.as_str()),
        },
    }
}

/// Whether both are absent or the same.
fn same_name(one: Option<&str>, two: Option<&str>) -> bool
    ensures { OnTrue result (option_map (λ name. name.now) one.entry ≡ option_map (λ name. name.now) two.entry) }
{
    match (one, two) {
        (None, None) => true,
        (Some(one), Some(two)) => one == two,
        _ => false,
    }
}

/// Whether one of two nodes has an anchor, or none has, and the third has that one.
fn is_one_anchor(outer: Option<&str>, own: Option<&str>, both: Option<&str>) -> bool
    ensures { OnTrue result (IsOneAnchor (option_map (λ name. name.now) outer.entry) (option_map (λ name. name.now) own.entry) (option_map (λ name. name.now) both.entry)) }
{
    match (outer, own) {
        (None, _) => same_name(both, own),
        (_, None) => same_name(both, outer),
        _ => false,
    }
}

/// Whether a node has no tag of its own, or the other has that one.
fn has_own_tag(own: &Properties<'_>, both: &Properties<'_>) -> bool
    ensures { OnTrue result (HasOwnTag (props_of own.now).tag (props_of both.now).tag) }
{
    match (&own.given, &both.given) {
        (None, _) => true,
        (Some(own), None) => matches!(own.tag, EventTag::None),
        (Some(own), Some(both)) => matches!(own.tag, EventTag::None)
            || same_tag(&both.tag, &own.tag),
    }
}

/// Whether these may be a node's own properties together with those on lines above.
pub(crate) fn are_both(outer: &Properties<'_>, own: &Properties<'_>, both: &Properties<'_>) -> bool
    ensures anchor { OnTrue result (IsOneAnchor (props_of outer.now).anchor (props_of own.now).anchor (props_of both.now).anchor) }
    ensures tag { OnTrue result (HasOwnTag (props_of own.now).tag (props_of both.now).tag) }
{
    is_one_anchor(anchor_in(outer), anchor_in(own), anchor_in(both)) && has_own_tag(own, both)
}
