//! Events, written as lines.
ghost use Rattle.std.specs.Prelude.{◌≡◌, ◌<◌, ◌≤◌, ◌+◌, ◌++◌, ◌∷◌, [], length, IfOk, IfErr, OnOk, OnErr, map, All, codes};
ghost use Rattle.std.specs.Option.{option_map};
ghost use Rattle.std.specs.Cow.{cow_str_bytes};
ghost use Rattle.std.specs.String.{string_bytes, string_len, string_capacity};
ghost use Rattle.yaml_text.specs.EventModel.{event_of, style_of, written_of};
ghost use Rattle.yaml_definitions.specs.model.EventText.{EventText, IsSound, event_line, anchor_part, tag_part, style_text, flag_text, value_text};
ghost use Rattle.yaml_definitions.specs.grammar.Characters.{b-line-feed};

use crate::name::push_anchor;
use crate::sink::Sink;
use crate::tag::push_tag;
use crate::value::push_value;
use std::alloc::{AllocError, Global};
use std::borrow::CowStr;
use yaml_text::event::{Event, EventTag, Style};
use yaml_text::fault::Fault;

/// The sign of a style before a value, after a space.
fn style_text(style: Style) -> &'static str
    ensures { result.now ≡ style_text (style_of style) }
{
    match style {
        Style::Plain => " :",
        Style::Single => " '",
        Style::Double => " \"",
        Style::Literal => " |",
        Style::Folded => " >",
    }
}

/// Appends a flow mark, if there is to be one.
fn push_mark<S: Sink>(mark: &str, flow: bool, out: &mut S) -> Result<(), AllocError>
    ensures ok { OnOk result (S.bytes out.new ≡ S.bytes out.old ++ flag_text flow mark.now) }
    ensures keeps { S.room out.old ≤ S.room out.new }
    ensures lent { S.lent out.new ≡ S.lent out.old }
    ensures full { OnErr result (S.room out.old < length (S.bytes out.old) + length (flag_text flow mark.now)) }
{
    if flow { out.put(mark) } else { Ok(()) }
}

/// Appends a collection's start from its flow mark on.
fn push_collection<S: Sink>(
    mark: &str,
    flow: bool,
    anchor: &Option<CowStr<'_>>,
    tag: &EventTag<'_>,
    out: &mut S,
) -> Result<(), AllocError>
    ensures ok { OnOk result (S.bytes out.new ≡ S.bytes out.old
        ++ (flag_text flow mark.now ++ (anchor_part (option_map cow_str_bytes anchor.now) ++ tag_part (written_of tag.now)))) }
    ensures keeps { S.room out.old ≤ S.room out.new }
    ensures lent { S.lent out.new ≡ S.lent out.old }
    ensures full { OnErr result (S.room out.old < length (S.bytes out.old)
        + length (flag_text flow mark.now ++ (anchor_part (option_map cow_str_bytes anchor.now) ++ tag_part (written_of tag.now)))) }
{
    push_mark(mark, flow, out)?;
    push_anchor(anchor, out)?;
    push_tag(tag, out)
}

/// Appends a scalar's line from its properties on.
fn push_scalar<S: Sink>(
    anchor: &Option<CowStr<'_>>,
    tag: &EventTag<'_>,
    style: Style,
    text: &str,
    out: &mut S,
) -> Result<(), AllocError>
    ensures ok { OnOk result (S.bytes out.new ≡ S.bytes out.old
        ++ (anchor_part (option_map cow_str_bytes anchor.now) ++ (tag_part (written_of tag.now) ++ (style_text (style_of style) ++ value_text text.now)))) }
    ensures keeps { S.room out.old ≤ S.room out.new }
    ensures lent { S.lent out.new ≡ S.lent out.old }
    ensures full { OnErr result (S.room out.old < length (S.bytes out.old)
        + length (anchor_part (option_map cow_str_bytes anchor.now) ++ (tag_part (written_of tag.now) ++ (style_text (style_of style) ++ value_text text.now)))) }
{
    push_anchor(anchor, out)?;
    push_tag(tag, out)?;
    out.put(style_text(style))?;
    push_value(text, out)
}

/// Appends an event's line without its LF.
#[tactic(auto, unfolding(yaml_definitions::specs::model::EventText::event_line))]
fn push_event<S: Sink>(event: &Event<'_>, out: &mut S) -> Result<(), AllocError>
    ensures ok { OnOk result (S.bytes out.new ≡ S.bytes out.old ++ event_line (event_of event.now)) }
    ensures keeps { S.room out.old ≤ S.room out.new }
    ensures lent { S.lent out.new ≡ S.lent out.old }
    ensures full { OnErr result (S.room out.old < length (S.bytes out.old) + length (event_line (event_of event.now))) }
{
    match event {
        Event::StreamStart => out.put("+STR"),
        Event::StreamEnd => out.put("-STR"),
        Event::DocumentStart { explicit: false } => out.put("+DOC"),
        Event::DocumentStart { explicit: true } => out.put("+DOC ---"),
        Event::DocumentEnd { explicit: false } => out.put("-DOC"),
        Event::DocumentEnd { explicit: true } => out.put("-DOC ..."),
        Event::SequenceStart { flow, anchor, tag } => {
            out.put("+SEQ")?;
            push_collection(" []", *flow, anchor, tag, out)
        }
        Event::SequenceEnd => out.put("-SEQ"),
        Event::MappingStart { flow, anchor, tag } => {
            out.put("+MAP")?;
            push_collection(" {}", *flow, anchor, tag, out)
        }
        Event::MappingEnd => out.put("-MAP"),
        Event::Scalar {
            anchor,
            tag,
            style,
            text,
        } => {
            out.put("=VAL")?;
            push_scalar(anchor, tag, *style, text.as_str(), out)
        }
        Event::Alias { name } => {
            out.put("=ALI *")?;
            out.put(name.as_str())
        }
    }
}

/// Appends an event's line with its LF. It fails only if there is no room for it. A part of the line may then be there.
pub fn put_line<S: Sink>(event: &Event<'_>, out: &mut S) -> Result<(), AllocError>
    ensures ok { OnOk result (S.bytes out.new ≡ S.bytes out.old ++ (event_line (event_of event.now) ++ (b-line-feed ∷ []))) }
    ensures keeps { S.room out.old ≤ S.room out.new }
    ensures lent { S.lent out.new ≡ S.lent out.old }
    ensures full { OnErr result (S.room out.old < length (S.bytes out.old) + length (event_line (event_of event.now) ++ (b-line-feed ∷ []))) }
{
    push_event(event, out)?;
    out.put("\n")
}

/// Appends an event's line with its LF, as `write_events` writes it. The only error is `OutOfMemory`, only if the text had no
/// room for the line. A part of the line may then be there.
pub fn push_line(event: &Event<'_>, out: &mut String) -> Result<(), AllocError>
    ensures ok { OnOk result (string_bytes out.new ≡ string_bytes out.old ++ (event_line (event_of event.now) ++ (b-line-feed ∷ []))) }
    ensures keeps { string_capacity out.old ≤ string_capacity out.new }
    ensures full { OnErr result (string_capacity out.old < string_len out.old + length (event_line (event_of event.now) ++ (b-line-feed ∷ []))) }
{
    put_line(event, out)?;
    Ok(())
}

/// The text of events: a line for each, ended by LF, in the notation of yaml-test-suite.
///
/// Of a value `\`, LF, tab, CR and x08 are escaped; tags are percent-encoded. Names are nonempty
/// and of anchor characters (YAML 1.2.2, 6.9.2), full tags are UTF-8 of 1 to 1,024 bytes and not
/// `!`. How the events nest is not looked at. The only fault is `OutOfMemory`.
pub fn write_events(alloc: Global, events: &[Event<'_>]) -> Result<String, Fault>
    requires { All IsSound (map event_of events.now) }
    ensures text { IfOk result (λ x. EventText (string_bytes x) (map event_of events.now)) }
    ensures only { IfErr result (λ fault. fault ≡ Fault.OutOfMemory) }
{
    let mut out = String::new(alloc);
    'lines: for event in events {
        push_line(event, &mut out)?;
    }
    Ok(out)
}
