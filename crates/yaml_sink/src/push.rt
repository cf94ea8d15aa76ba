//! Calls that make an event and put it down. Each is out of line, so that no event stands in the frame of a call that nests.
ghost use Rattle.std.specs.Prelude.{◌≡◌, IfOk, IfErr, [], ◌∷◌, None, true, false};
ghost use Rattle.std.specs.Cow.{cow_str_bytes};
ghost use Rattle.std.specs.Str.{chars};
ghost use Rattle.yaml_definitions.specs.model.Event.{untagged, sequence_start, mapping_start, sequence_end, mapping_end};
ghost use Rattle.yaml_definitions.specs.grammar.Events.{no_props, seq_start, map_start, scalar, e-scalar as empty};
ghost use Rattle.yaml_text.specs.EventModel.{event_of, style_of};
ghost use Rattle.yaml_text.specs.declared.fault.Fault.TheVariants.{OutOfMemory};
ghost use Rattle.yaml_sink.specs.Held.{Puts, Alters};
ghost use Rattle.yaml_sink.specs.SinkModel.{holds_of};
ghost use Rattle.yaml_sink.specs.PropertyRules.{props_of};

use crate::properties::Properties;
use crate::sink::{Collection, Keeper, Sink};
use std::borrow::CowStr;
use yaml_text::event::Style;
use yaml_text::fault::Fault;

/// Puts down the start of a flow sequence.
#[inline(never)]
pub fn push_flow_sequence<'a, K: Keeper>(out: &mut Sink<'a, K>, at: usize) -> Result<(), Fault>
    ensures ok { IfOk result (λ _. Puts (holds_of K.holds) out.old (sequence_start true None untagged ∷ []) out.new) }
    ensures err { IfErr result (λ e. e ≡ OutOfMemory) }
{
    out.begin(Collection::Sequence, true, at)
}

/// Puts down the start of a flow mapping.
#[inline(never)]
pub fn push_flow_mapping<'a, K: Keeper>(out: &mut Sink<'a, K>, at: usize) -> Result<(), Fault>
    ensures ok { IfOk result (λ _. Puts (holds_of K.holds) out.old (mapping_start true None untagged ∷ []) out.new) }
    ensures err { IfErr result (λ e. e ≡ OutOfMemory) }
{
    out.begin(Collection::Mapping, true, at)
}

/// Puts down the end of a sequence.
#[inline(never)]
pub fn push_sequence_end<'a, K: Keeper>(out: &mut Sink<'a, K>, at: usize) -> Result<(), Fault>
    ensures ok { IfOk result (λ _. Puts (holds_of K.holds) out.old (sequence_end ∷ []) out.new) }
    ensures err { IfErr result (λ e. e ≡ OutOfMemory) }
{
    out.end(Collection::Sequence, at)
}

/// Puts down the end of a mapping.
#[inline(never)]
pub fn push_mapping_end<'a, K: Keeper>(out: &mut Sink<'a, K>, at: usize) -> Result<(), Fault>
    ensures ok { IfOk result (λ _. Puts (holds_of K.holds) out.old (mapping_end ∷ []) out.new) }
    ensures err { IfErr result (λ e. e ≡ OutOfMemory) }
{
    out.end(Collection::Mapping, at)
}

/// Puts down the start of a block sequence with its properties.
#[inline(never)]
pub fn push_block_sequence<'a, K: Keeper>(
    out: &mut Sink<'a, K>,
    properties: Properties<'a>,
    at: usize,
) -> Result<(), Fault>
    ensures ok { IfOk result (λ _. Puts (holds_of K.holds) out.old (seq_start false (props_of properties.entry) ∷ []) out.new) }
    ensures err { IfErr result (λ e. e ≡ OutOfMemory) }
{
    let start = out.mark();
    out.begin(Collection::Sequence, false, at)?;
    out.dress(start, properties);
    Ok(())
}

/// Puts the start of a flow mapping before what was put down since a mark.
#[inline(never)]
pub fn insert_flow_mapping<'a, K: Keeper>(
    out: &mut Sink<'a, K>,
    start: usize,
    at: usize,
) -> Result<(), Fault>
    ensures ok { IfOk result (λ _. Alters (holds_of K.holds) start (λ es. mapping_start true None untagged ∷ es) out.old out.new) }
    ensures err { IfErr result (λ e. e ≡ OutOfMemory) }
{
    out.insert(start, true, at)
}

/// Puts the start of a block mapping with its properties before what was put down since a mark.
#[inline(never)]
pub fn insert_block_mapping<'a, K: Keeper>(
    out: &mut Sink<'a, K>,
    start: usize,
    properties: Properties<'a>,
    at: usize,
) -> Result<(), Fault>
    ensures ok { IfOk result (λ _. Alters (holds_of K.holds) start (λ es. map_start false (props_of properties.entry) ∷ es) out.old out.new) }
    ensures err { IfErr result (λ e. e ≡ OutOfMemory) }
{
    out.insert(start, false, at)?;
    out.dress(start, properties);
    Ok(())
}

/// Puts down a scalar, in the caller's own frame: for calls in which none nests.
#[inline(always)]
pub fn put_scalar<'a, K: Keeper>(
    out: &mut Sink<'a, K>,
    style: Style,
    text: CowStr<'a>,
    at: usize,
) -> Result<(), Fault>
    ensures ok { IfOk result (λ _. Puts (holds_of K.holds) out.old (scalar no_props (style_of style) (chars (cow_str_bytes text.entry)) ∷ []) out.new) }
    ensures err { IfErr result (λ e. e ≡ OutOfMemory) }
{
    // a text that is seen is known to be UTF-8
    let _ = text.as_str();
    out.scalar(style, text, at)
}

/// Puts down a scalar.
#[inline(never)]
pub fn push_scalar<'a, K: Keeper>(
    out: &mut Sink<'a, K>,
    style: Style,
    text: CowStr<'a>,
    at: usize,
) -> Result<(), Fault>
    ensures ok { IfOk result (λ _. Puts (holds_of K.holds) out.old (scalar no_props (style_of style) (chars (cow_str_bytes text.entry)) ∷ []) out.new) }
    ensures err { IfErr result (λ e. e ≡ OutOfMemory) }
{
    put_scalar(out, style, text, at)
}

/// Puts down the empty scalar, which takes no characters (YAML 1.2.2, 7.2).
#[inline(never)]
pub fn push_empty<'a, K: Keeper>(out: &mut Sink<'a, K>, at: usize) -> Result<(), Fault>
    ensures ok { IfOk result (λ _. Puts (holds_of K.holds) out.old (empty no_props) out.new) }
    ensures err { IfErr result (λ e. e ≡ OutOfMemory) }
{
    push_scalar(out, Style::Plain, CowStr::Borrowed(""), at)
}
