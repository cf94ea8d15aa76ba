//! The names of event lines: anchors and aliases.
ghost use Rattle.std.specs.Prelude.{◌≡◌, ◌<◌, ◌≤◌, ◌+◌, ◌++◌, length, OnOk, OnErr};
ghost use Rattle.std.specs.Option.{option_map};
ghost use Rattle.std.specs.Cow.{cow_str_bytes};
ghost use Rattle.yaml_definitions.specs.model.EventText.{anchor_part};
ghost use Rattle.yaml_definitions.specs.model.Sound.{is_anchor, is_anchor_char};
ghost use Rattle.yaml_events.specs.LineAnswer.{Parses};
ghost use Rattle.yaml_events.specs.Parts.{IsCutAtSpace, IsAnchored, EndsAnchor};

use crate::fault::LineFault;
use crate::sink::Sink;
use std::alloc::AllocError;
use std::borrow::CowStr;
use yaml_text::class::{is_break, is_flow_indicator, is_printable, is_white};

/// Appends an anchor, where there is one, after a space.
pub fn push_anchor<S: Sink>(anchor: &Option<CowStr<'_>>, out: &mut S) -> Result<(), AllocError>
    ensures ok { OnOk result (S.bytes out.new ≡ S.bytes out.old ++ anchor_part (option_map cow_str_bytes anchor.now)) }
    ensures keeps { S.room out.old ≤ S.room out.new }
    ensures lent { S.lent out.new ≡ S.lent out.old }
    ensures full { OnErr result (S.room out.old < length (S.bytes out.old) + length (anchor_part (option_map cow_str_bytes anchor.now))) }
{
    match anchor {
        None => Ok(()),
        Some(name) => {
            out.put(" &")?;
            out.put(name.as_str())
        }
    }
}

/// Whether `c` is a character of names (YAML 1.2.2, 6.9.2); U+FEFF is none, as no text holds it.
#[tactic(auto, unfolding(yaml_definitions::specs::grammar::Tags::is_name, yaml_definitions::specs::grammar::Characters::is_ns, yaml_definitions::specs::grammar::Characters::is_nb))]
fn is_name_char(c: char) -> bool
    ensures { result ≡ is_anchor_char c }
{
    is_printable(c) && c != '\u{FEFF}' && !is_break(c) && !is_white(c) && !is_flow_indicator(c)
}

/// Whether a text is a name: one or more characters of names.
pub fn is_name(text: &str) -> bool
    ensures { result ≡ is_anchor text.now }
{
    'chars: for c in text.chars() {
        if !is_name_char(c) {
            return false;
        }
    }
    !text.is_empty()
}

/// A text up to its first space, and what is left.
fn cut_at_space(text: &str) -> (&str, &str)
    ensures { IsCutAtSpace text.now result.0.now result.1.now }
{
    match text.find(' ') {
        Some(at) => (&text[..at], &text[at..]),
        None => (text, ""),
    }
}

/// The anchor that a text begins with, if it does, after a space, and what is left.
pub fn read_anchor<'a>(text: &'a str) -> Result<(Option<CowStr<'a>>, &'a str), LineFault>
    ensures { Parses (IsAnchored text.now) (λ p. IsAnchored text.now p × EndsAnchor p) (λ r. (option_map cow_str_bytes r.0, r.1.now)) result }
{
    let Some(after) = text.strip_prefix(" &") else {
        return Ok((None, text));
    };
    let (name, rest) = cut_at_space(after);
    if !is_name(name) {
        return Err(LineFault::NoEvent);
    }
    Ok((Some(CowStr::Borrowed(name)), rest))
}
