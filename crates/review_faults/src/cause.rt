//! Why an event is warned of.
ghost use Rattle.std.specs.Prelude.{◌≡◌, ◌++◌, false, option_map, string_bytes, IfOk, OnOk};
ghost use Rattle.std.specs.List.{list_all};
ghost use Rattle.review_text.specs.Yaml11.{older_of};
ghost use Rattle.yaml_text.specs.EventModel.{event_of};
ghost use Rattle.review_faults.specs.Causes.{begins_indicator, name_cause, indicator_cause, equal_cause, octal_cause, tagged_cause, slip_cause, plain_text, TellsOlder};
ghost use Rattle.review_faults.specs.Labels.{is_name_byte, label_of};
ghost use Rattle.review_faults.specs.Says.{equal_words, key_text, label_text};

use crate::keys::Reader;
use crate::label::{Label, name_of, node_of};
use crate::slip::{Around, Slip, slip_in};
use review_text::fronts::put_shown;
use review_text::text::{CUT, front};
use review_text::yaml11::{Older, read_older};
use std::alloc::{AllocError, Global};
use yaml_text::core_tag;
use yaml_text::event::{Event, EventTag, Style};

/// Why an event is warned of.
#[derive(Clone, Copy)]
pub enum Cause {
    /// Other readers do not take a character of the name of its anchor or alias.
    Name,
    /// It is a plain scalar in a flow collection that begins with `?` or `:`, which is an indicator to other readers.
    Indicator,
    /// It is a key that is equal in a language to the one at the event of this number.
    Equal(Reader, usize),
    /// YAML 1.1 reads it otherwise.
    Older(Older),
    /// It is commonly a slip.
    Slip(Slip),
}

/// Whether PyYAML, libyaml and yaml.v3 take a byte in names.
pub(crate) fn is_name_byte(byte: u8) -> bool
    ensures { result ≡ is_name_byte byte }
{
    matches!(byte, b'A'..=b'Z' | b'a'..=b'z' | b'0'..=b'9' | b'-' | b'_')
}

/// Whether they take a name.
fn is_name(text: &str) -> bool
    ensures { result ≡ list_all is_name_byte text.now }
{
    text.as_bytes().iter().all(|byte| is_name_byte(*byte))
}

/// The warning of the name at an event.
pub(crate) fn name_cause(event: &Event<'_>) -> Option<Cause>
    ensures { result ≡ name_cause (event_of event.now) }
{
    match name_of(event) {
        Some(label) if !is_name(label.text) => Some(Cause::Name),
        _ => None,
    }
}

/// Whether the first character of a text is an indicator in a flow collection.
fn begins_indicator(text: &str) -> bool
    ensures { result ≡ begins_indicator text.now }
{
    matches!(text.as_bytes().first(), Some(b'?' | b':'))
}

/// The warning of the first character of a plain scalar, which is in a flow collection or not.
pub(crate) fn indicator_cause(event: &Event<'_>, is_in_flow: bool) -> Option<Cause>
    ensures { result ≡ indicator_cause is_in_flow (event_of event.now) }
{
    match event {
        Event::Scalar {
            style: Style::Plain,
            text,
            ..
        } if is_in_flow && begins_indicator(text.as_str()) => Some(Cause::Indicator),
        _ => None,
    }
}

/// The warning of a key that is equal in a language to an earlier one.
pub(crate) fn equal_cause(reader: Reader, first: Option<usize>) -> Option<Cause>
    ensures { result ≡ equal_cause reader first }
{
    match first {
        Some(first) => Some(Cause::Equal(reader, first)),
        None => None,
    }
}

/// The text of an event that is an untagged plain scalar.
fn plain_text<'e>(event: &'e Event<'_>) -> Option<&'e str>
    ensures { option_map (λ text. text.now) result ≡ plain_text (event_of event.now) }
{
    match event {
        Event::Scalar {
            tag: EventTag::None,
            style: Style::Plain,
            text,
            ..
        } => Some(text.as_str()),
        _ => None,
    }
}

/// The warning of an untagged plain scalar, which is a key or not, that YAML 1.1 reads otherwise.
pub(crate) fn older_cause(event: &Event<'_>, is_key: bool) -> Option<Cause>
    ensures { TellsOlder is_key (plain_text (event_of event.now)) result }
{
    match plain_text(event) {
        Some(text) => match read_older(text, is_key) {
            Some(older) => Some(Cause::Older(older)),
            None => None,
        },
        None => None,
    }
}

/// The warning of an int of base 8.
fn octal_cause(older: Option<Older>) -> Option<Cause>
    ensures { result ≡ octal_cause older }
{
    match older {
        Some(Older::Octal) => Some(Cause::Older(Older::Octal)),
        _ => None,
    }
}

/// The warning of a text, if YAML 1.1 reads its digits by base 8.
fn text_cause(text: &str) -> Option<Cause>
    ensures { result ≡ octal_cause (older_of text.now false) }
{
    octal_cause(read_older(text, false))
}

/// The warning of a scalar with the tag of ints, of which YAML 1.1 reads the digits by base 8.
#[tactic(auto, unfolding(yaml_definitions::specs::model::Tag::core_tag))]
pub(crate) fn tagged_cause(event: &Event<'_>) -> Option<Cause>
    ensures { result ≡ tagged_cause (event_of event.now) }
{
    match event {
        Event::Scalar {
            tag: EventTag::Full(tag),
            text,
            ..
        } if tag.as_str() == core_tag::INT => text_cause(text.as_str()),
        _ => None,
    }
}

/// The warning of an untagged plain scalar that is commonly a slip.
pub(crate) fn slip_cause(event: &Event<'_>, around: Around) -> Option<Cause>
    ensures { result ≡ slip_cause around (plain_text (event_of event.now)) }
{
    match plain_text(event) {
        Some(text) => match slip_in(around, text) {
            Some(slip) => Some(Cause::Slip(slip)),
            None => None,
        },
        None => None,
    }
}

/// Writes what a key shows, of 60 bytes at most.
pub(crate) fn put_label(
    alloc: Global,
    out: &mut String,
    label: Option<Label<'_>>,
) -> Result<(), AllocError>
    ensures ok { OnOk result (string_bytes out.new ≡ string_bytes out.old ++ label_text (option_map label_of label.entry)) }
{
    match label {
        Some(label) => {
            let text = label.to_text(alloc)?;
            put_shown(out, front(&text, CUT))
        }
        None => Ok(()),
    }
}

/// Writes the key that begins at an event, if it is a scalar or an alias.
fn put_key(alloc: Global, out: &mut String, event: Option<&Event<'_>>) -> Result<(), AllocError>
    ensures ok { OnOk result (string_bytes out.new ≡ string_bytes out.old ++ key_text (option_map (λ e. event_of e.now) event.entry)) }
{
    match event {
        Some(event) => put_label(alloc, out, node_of(event)),
        None => Ok(()),
    }
}

/// What is said of a key that is equal in a language to the one at another event.
fn equal_words(
    alloc: Global,
    reader: Reader,
    first: Option<&Event<'_>>,
) -> Result<String, AllocError>
    ensures ok { IfOk result (λ words. string_bytes words ≡ equal_words reader (option_map (λ e. event_of e.now) first.entry)) }
{
    let mut out = String::new(alloc);
    out.push_str("in ")?;
    out.push_str(reader.name())?;
    out.push_str(" the same key as ")?;
    put_key(alloc, &mut out, first)?;
    Ok(out)
}

impl Cause {
    ghost use Rattle.std.specs.Prelude.{◌≡◌, map, option_map, string_bytes, IfOk};
    ghost use Rattle.yaml_text.specs.EventModel.{event_of};
    ghost use Rattle.review_faults.specs.Labels.{label_of};
    ghost use Rattle.review_faults.specs.Causes.{cause_rule, shown_label, is_allowed};
    ghost use Rattle.review_faults.specs.Says.{Says};

    /// What the warning is called where findings have rules.
    pub(crate) fn rule(self) -> &'static str
        ensures { result.now ≡ cause_rule self }
    {
        match self {
            Cause::Name => "anchor-name",
            Cause::Indicator => "flow-indicator",
            Cause::Equal(_, _) => "equal-key",
            Cause::Older(_) => "yaml-1.1",
            Cause::Slip(_) => "slip",
        }
    }

    /// What the warning shows of the event.
    pub(crate) fn label<'e>(self, event: &'e Event<'_>) -> Option<Label<'e>>
        ensures { option_map label_of result ≡ shown_label self (event_of event.now) }
    {
        match self {
            Cause::Name => name_of(event),
            Cause::Indicator | Cause::Equal(_, _) | Cause::Older(_) | Cause::Slip(_) => {
                node_of(event)
            }
        }
    }

    /// Whether that is one of these words.
    pub(crate) fn is_allowed(self, event: &Event<'_>, allowed: &[&str]) -> bool
        ensures { result ≡ is_allowed allowed.now self (event_of event.now) }
    {
        match self.label(event) {
            Some(label) => label.is_among(allowed),
            None => false,
        }
    }

    /// What the warning says of this text, which one of these events has.
    pub(crate) fn words(
        self,
        alloc: Global,
        events: &[Event<'_>],
        text: &str,
    ) -> Result<String, AllocError>
        ensures ok { IfOk result (λ words. Says (map event_of events.now) self text.now (string_bytes words)) }
    {
        match self {
            Cause::Name => Ok(NAME.to_string(alloc)?),
            Cause::Indicator => Ok(INDICATOR.to_string(alloc)?),
            Cause::Equal(reader, first) => equal_words(alloc, reader, events.get(first)),
            Cause::Older(older) => older.words(alloc, text),
            Cause::Slip(slip) => Ok(slip.words().to_string(alloc)?),
        }
    }
}

/// What is said of a name.
const NAME: &str = "a name here; in PyYAML, libyaml and yaml.v3 it ends earlier, or is rejected";

/// What is said of a plain scalar that begins with `?` or `:`.
const INDICATOR: &str =
    "its first character is text here, and an indicator in PyYAML, libyaml and yaml.v3";
