//! What a warning shows of an event.
ghost use Rattle.std.specs.Prelude.{◌≡◌, option_map, string_bytes, IfOk};
ghost use Rattle.yaml_text.specs.EventModel.{event_of};
ghost use Rattle.review_faults.specs.Labels.{anchor_of, alias_of, label_of, name_of, node_of};

use std::alloc::{AllocError, Global};
use yaml_text::event::Event;

/// A scalar, or a name with its `&` or `*`.
#[derive(Clone, Copy)]
pub(crate) struct Label<'e> {
    /// The `&` or the `*`.
    mark: &'e str,
    pub(crate) text: &'e str,
}

impl<'e> Label<'e> {
    ghost use Rattle.std.specs.Prelude.{◌≡◌, bytes_eq, string_bytes, IfOk};
    ghost use Rattle.review_faults.specs.Labels.{label_of, whole, is_among};

    /// Whether it is this word.
    fn is_word(self, word: &str) -> bool
        ensures { result ≡ bytes_eq word.now (whole (label_of self.entry)) }
    {
        match word.strip_prefix(self.mark) {
            Some(rest) => rest == self.text,
            None => false,
        }
    }

    /// Whether it is one of these words.
    pub(crate) fn is_among(self, words: &[&str]) -> bool
        ensures { result ≡ is_among words.now (label_of self.entry) }
    {
        words.iter().any(|word| self.is_word(word))
    }

    /// All of it.
    pub(crate) fn to_text(self, alloc: Global) -> Result<String, AllocError>
        ensures ok { IfOk result (λ text. string_bytes text ≡ whole (label_of self.entry)) }
    {
        let mut out = self.mark.to_string(alloc)?;
        out.push_str(self.text)?;
        Ok(out)
    }
}

/// The name of the anchor of the node that an event begins.
pub(crate) fn anchor_of<'e>(event: &'e Event<'_>) -> Option<&'e str>
    ensures { option_map (λ name. name.now) result ≡ anchor_of (event_of event.now) }
{
    match event {
        Event::Scalar {
            anchor: Some(name),
            ..
        }
        | Event::SequenceStart {
            anchor: Some(name),
            ..
        }
        | Event::MappingStart {
            anchor: Some(name),
            ..
        } => Some(name.as_str()),
        _ => None,
    }
}

/// The name of an alias.
fn alias_of<'e>(event: &'e Event<'_>) -> Option<Label<'e>>
    ensures { option_map label_of result ≡ alias_of (event_of event.now) }
{
    match event {
        Event::Alias { name } => Some(Label {
            mark: "*",
            text: name.as_str(),
        }),
        _ => None,
    }
}

/// The name of an alias, or of a node's anchor.
pub(crate) fn name_of<'e>(event: &'e Event<'_>) -> Option<Label<'e>>
    ensures { option_map label_of result ≡ name_of (event_of event.now) }
{
    match anchor_of(event) {
        Some(name) => Some(Label {
            mark: "&",
            text: name,
        }),
        None => alias_of(event),
    }
}

/// The text of a scalar, or the name of an alias.
pub(crate) fn node_of<'e>(event: &'e Event<'_>) -> Option<Label<'e>>
    ensures { option_map label_of result ≡ node_of (event_of event.now) }
{
    match event {
        Event::Scalar { text, .. } => Some(Label {
            mark: "",
            text: text.as_str(),
        }),
        _ => alias_of(event),
    }
}
