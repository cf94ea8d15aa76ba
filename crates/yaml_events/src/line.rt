//! One line of an event text, without its LF.
ghost use Rattle.std.specs.Prelude.{◌≡◌, ◌≢◌, ◌++◌, List, ℕ, Bool, MatchOption, IfOk, codes};
ghost use Rattle.std.specs.Str.{IsUtf8};
ghost use Rattle.std.specs.Option.{option_map};
ghost use Rattle.std.specs.Cow.{cow_str_bytes};
ghost use Rattle.yaml_text.specs.EventModel.{event_of, style_of, written_of};
ghost use Rattle.yaml_definitions.specs.model.EventText.{event_line, style_text};
ghost use Rattle.yaml_definitions.specs.model.Event as plain;
ghost use Rattle.yaml_events.specs.LineAnswer.{Parses};
ghost use Rattle.yaml_events.specs.Parts.{IsProps, EndsProps, IsCut, EndsMark, IsMark, IsCollection, IsScalarLine, IsLineOf, IsBare, IsSigned};

use crate::fault::LineFault;
use crate::name::{is_name, read_anchor};
use crate::tag::read_tag;
use crate::value::read_value;
use std::alloc::Global;
use std::borrow::CowStr;
use yaml_text::event::{Event, EventTag, Style};

/// The anchor and the tag that a text begins with, and what is left.
fn read_properties<'a>(
    alloc: Global,
    text: &'a str,
) -> Result<(Option<CowStr<'a>>, EventTag<'a>, &'a str), LineFault>
    ensures { Parses (IsProps text.now) (λ p. IsProps text.now p × EndsProps p)
        (λ r. (option_map cow_str_bytes r.0, written_of r.1, r.2.now)) result }
{
    let (anchor, rest) = read_anchor(text)?;
    let (tag, after) = read_tag(alloc, rest)?;
    Ok((anchor, tag, after))
}

/// Whether a text begins with a flow mark, and what is left.
fn cut_mark<'a>(mark: &str, text: &'a str) -> (bool, &'a str)
    ensures { IsCut mark.now text.now (result.0, result.1.now)
        × ((p : Bool × List ℕ) → IsCut mark.now text.now p × EndsMark mark.now p → (result.0, result.1.now) ≡ p) }
{
    match text.strip_prefix(mark) {
        Some(rest) => (true, rest),
        None => (false, text),
    }
}

/// What a collection's line says after its first four characters.
fn read_collection<'a>(
    alloc: Global,
    mark: &str,
    text: &'a str,
) -> Result<(bool, Option<CowStr<'a>>, EventTag<'a>), LineFault>
    requires { IsMark mark.now }
    ensures { Parses (IsCollection mark.now text.now) (IsCollection mark.now text.now)
        (λ r. (r.0, option_map cow_str_bytes r.1, written_of r.2)) result }
{
    let (flow, rest) = cut_mark(mark, text);
    let (anchor, tag, after) = read_properties(alloc, rest)?;
    if !after.is_empty() {
        return Err(LineFault::NoEvent);
    }
    Ok((flow, anchor, tag))
}

/// The style that a sign before a value means, and the value.
fn cut_sign<'a>(text: &'a str) -> Result<(Style, &'a str), LineFault>
    ensures { Parses (IsSigned text.now) (IsSigned text.now) (λ r. (style_of r.0, r.1.now)) result }
{
    if let Some(value) = text.strip_prefix(" :") {
        return Ok((Style::Plain, value));
    }
    if let Some(value) = text.strip_prefix(" '") {
        return Ok((Style::Single, value));
    }
    if let Some(value) = text.strip_prefix(" \"") {
        return Ok((Style::Double, value));
    }
    if let Some(value) = text.strip_prefix(" |") {
        return Ok((Style::Literal, value));
    }
    match text.strip_prefix(" >") {
        Some(value) => Ok((Style::Folded, value)),
        None => Err(LineFault::NoEvent),
    }
}

/// What a scalar's line says after its first four characters.
fn read_scalar<'a>(
    alloc: Global,
    text: &'a str,
) -> Result<(Option<CowStr<'a>>, EventTag<'a>, Style, CowStr<'a>), LineFault>
    ensures reads { Parses (IsScalarLine text.now) (IsScalarLine text.now)
        (λ r. (option_map cow_str_bytes r.0, written_of r.1, style_of r.2, cow_str_bytes r.3)) result }
    ensures utf8 { IfOk result (λ r. IsUtf8 (cow_str_bytes r.3)) }
{
    let (anchor, tag, rest) = read_properties(alloc, text)?;
    let (style, value) = cut_sign(rest)?;
    let content = read_value(alloc, value)?;
    Ok((anchor, tag, style, content))
}

/// The event of a line that is the same wherever it stands.
#[tactic(auto, unfolding(yaml_definitions::specs::model::EventText::event_line))]
fn bare_event<'a>(line: &str) -> Option<Event<'a>>
    ensures { MatchOption result ((e : plain.Event) → IsBare e → line.now ≢ event_line e)
        (λ e. IsBare (event_of e) × (line.now ≡ event_line (event_of e))) }
{
    match line {
        "+STR" => Some(Event::StreamStart),
        "-STR" => Some(Event::StreamEnd),
        "+DOC" => Some(Event::DocumentStart { explicit: false }),
        "+DOC ---" => Some(Event::DocumentStart { explicit: true }),
        "-DOC" => Some(Event::DocumentEnd { explicit: false }),
        "-DOC ..." => Some(Event::DocumentEnd { explicit: true }),
        "-SEQ" => Some(Event::SequenceEnd),
        "-MAP" => Some(Event::MappingEnd),
        _ => None,
    }
}

/// The event that a line is that of.
pub fn read_line<'a>(alloc: Global, line: &'a str) -> Result<Event<'a>, LineFault>
    ensures { Parses (IsLineOf line.now) (IsLineOf line.now) event_of result }
{
    if let Some(event) = bare_event(line) {
        return Ok(event);
    }
    if let Some(rest) = line.strip_prefix("+SEQ") {
        let (flow, anchor, tag) = read_collection(alloc, " []", rest)?;
        return Ok(Event::SequenceStart { flow, anchor, tag });
    }
    if let Some(rest) = line.strip_prefix("+MAP") {
        let (flow, anchor, tag) = read_collection(alloc, " {}", rest)?;
        return Ok(Event::MappingStart { flow, anchor, tag });
    }
    if let Some(rest) = line.strip_prefix("=VAL") {
        let (anchor, tag, style, text) = read_scalar(alloc, rest)?;
        return Ok(Event::Scalar {
            anchor,
            tag,
            style,
            text,
        });
    }
    let Some(name) = line.strip_prefix("=ALI *") else {
        return Err(LineFault::NoEvent);
    };
    if !is_name(name) {
        return Err(LineFault::NoEvent);
    }
    Ok(Event::Alias {
        name: CowStr::Borrowed(name),
    })
}
