//! Entries of flow mappings (YAML 1.2.2, 7.4.2).
ghost use Rattle.std.specs.Prelude.{◌⊎◌, IfOk, IfErr};
ghost use Rattle.yaml_text.specs.Source.{text_of, place_of};
ghost use Rattle.yaml_text.specs.EventModel.{context_of};
ghost use Rattle.yaml_text.specs.Lines.{Inside};
ghost use Rattle.law_one_reading.specs.Follows.{Closes};
ghost use Rattle.yaml_layout.specs.declared.flow.Kind.TheVariants.{Yaml};
ghost use Rattle.yaml_text.specs.Placed.{IsPlaced};
ghost use Rattle.yaml_sink.specs.SinkModel.{holds_of};
ghost use Rattle.yaml_flow.specs.FlowRules.{SignAt};
ghost use Rattle.yaml_layout.specs.NodeLevels.{Ends};
ghost use Rattle.yaml_flow.specs.Levels.{StartsPart, FollowsAsked, StartsValue, entry_rule, keyed_rule, asked_rule, value_rule, ReadsPart, DecidesPartAt};

use crate::flow::nodes::read_flow_node;
use crate::flow::signs::{ends_value, is_parted, question_sign, value_sign};
use std::alloc::Global;
use yaml_layout::flow::Kind;
use yaml_layout::level::Level;
use yaml_layout::line::separation;
use yaml_sink::push::push_empty;
use yaml_sink::sink::{Keeper, Sink};
use yaml_text::chars::Chars;
use yaml_text::fault::Fault;
use yaml_text::lines::unusable;

/// The colon that makes a node a key: where it stands, the border after it, and the kind of the key.
#[derive(Clone, Copy)]
pub struct Colon {
    pub at: usize,
    pub after: usize,
    pub kind: Kind,
}

/// The value after a key's colon (7.4.2).
#[inline(always)]
#[cycle(nodes)]
pub fn read_value<'a, K: Keeper>(
    alloc: Global,
    source: &Chars<'a>,
    colon: Colon,
    level: &Level<'_, 'a>,
    out: &mut Sink<'a, K>,
) -> Result<(usize, u32), Fault>
    requires { StartsValue source.now level.now colon }
    ensures ends { IfOk result (λ r. Ends source.now level.now colon.after r.0 r.1) }
    ensures reads { ReadsPart (value_rule colon.kind) source.now level.now colon.at (holds_of K.holds) out.old out.new result }
    ensures next { IfOk result (λ r. Inside (text_of source.now) (place_of source.now r.0) ⊎ Closes (text_of source.now) (place_of source.now r.0)) }
    ensures decides { DecidesPartAt source.now level.now colon.at (value_rule colon.kind) result }
    ensures placed { IfErr result (IsPlaced source.now) }
{
    let start = separation(source, colon.after, level.least, level.context)?;
    if !is_parted(colon.kind, colon.after, start) {
        push_empty(out, colon.after)?;
        return Ok((colon.after, 0));
    }
    if ends_value(source, start) {
        push_empty(out, colon.after)?;
        return Ok((colon.after, 0));
    }
    let value = read_flow_node(alloc, source, start, level, out)?;
    Ok((value.end, value.deep))
}

/// An entry of a flow mapping (7.4.2).
#[cycle(nodes)]
pub fn read_entry<'a, K: Keeper>(
    alloc: Global,
    source: &Chars<'a>,
    at: usize,
    level: &Level<'_, 'a>,
    out: &mut Sink<'a, K>,
) -> Result<(usize, u32), Fault>
    requires { StartsPart source.now level.now at }
    ensures ends { IfOk result (λ r. Ends source.now level.now at r.0 r.1) }
    ensures reads { ReadsPart entry_rule source.now level.now at (holds_of K.holds) out.old out.new result }
    ensures next { IfOk result (λ r. Inside (text_of source.now) (place_of source.now r.0) ⊎ Closes (text_of source.now) (place_of source.now r.0)) }
    ensures decides { DecidesPartAt source.now level.now at entry_rule result }
    ensures placed { IfErr result (IsPlaced source.now) }
{
    match question_sign(source, at, level.context) {
        None => read_keyed(alloc, source, at, level, out),
        Some(after) => read_asked(alloc, source, after, level, out),
    }
}

/// A key and its value after a `?`, either of which may be empty (7.4.2).
#[inline(always)]
#[cycle(nodes)]
pub fn read_asked<'a, K: Keeper>(
    alloc: Global,
    source: &Chars<'a>,
    after: usize,
    level: &Level<'_, 'a>,
    out: &mut Sink<'a, K>,
) -> Result<(usize, u32), Fault>
    requires { FollowsAsked source.now level.now after }
    ensures ends { IfOk result (λ r. Ends source.now level.now after r.0 r.1) }
    ensures reads { ReadsPart asked_rule source.now level.now after (holds_of K.holds) out.old out.new result }
    ensures next { IfOk result (λ r. Inside (text_of source.now) (place_of source.now r.0) ⊎ Closes (text_of source.now) (place_of source.now r.0)) }
    ensures decides { DecidesPartAt source.now level.now after asked_rule result }
    ensures placed { IfErr result (IsPlaced source.now) }
{
    let start = separation(source, after, level.least, level.context)?;
    if start == after {
        return Err(unusable(source, after));
    }
    if ends_value(source, start) {
        push_empty(out, after)?;
        push_empty(out, after)?;
        return Ok((start, 0));
    }
    read_keyed(alloc, source, start, level, out)
}

/// An entry of a flow mapping without `?`: a key, perhaps an empty one, and its value or none (7.4.2).
#[inline(never)]
#[cycle(nodes)]
fn read_keyed<'a, K: Keeper>(
    alloc: Global,
    source: &Chars<'a>,
    at: usize,
    level: &Level<'_, 'a>,
    out: &mut Sink<'a, K>,
) -> Result<(usize, u32), Fault>
    requires { StartsPart source.now level.now at }
    ensures ends { IfOk result (λ r. Ends source.now level.now at r.0 r.1) }
    ensures reads { ReadsPart keyed_rule source.now level.now at (holds_of K.holds) out.old out.new result }
    ensures next { IfOk result (λ r. Inside (text_of source.now) (place_of source.now r.0) ⊎ Closes (text_of source.now) (place_of source.now r.0)) }
    ensures decides { DecidesPartAt source.now level.now at keyed_rule result }
    ensures placed { IfErr result (IsPlaced source.now) }
{
    match value_sign(source, at, Kind::Yaml, level.context) {
        None => read_key_entry(alloc, source, at, level, out),
        Some(after) => {
            push_empty(out, at)?;
            let kind = Kind::Yaml;
            read_value(alloc, source, Colon { at, after, kind }, level, out)
        }
    }
}

/// An entry of a flow mapping that begins with a key.
#[inline(always)]
#[cycle(nodes)]
fn read_key_entry<'a, K: Keeper>(
    alloc: Global,
    source: &Chars<'a>,
    at: usize,
    level: &Level<'_, 'a>,
    out: &mut Sink<'a, K>,
) -> Result<(usize, u32), Fault>
    requires starts { StartsPart source.now level.now at }
    requires no_colon { SignAt Yaml (context_of level.now.context) (text_of source.now) (place_of source.now at) → ⊥ }
    ensures ends { IfOk result (λ r. Ends source.now level.now at r.0 r.1) }
    ensures reads { ReadsPart keyed_rule source.now level.now at (holds_of K.holds) out.old out.new result }
    ensures next { IfOk result (λ r. Inside (text_of source.now) (place_of source.now r.0) ⊎ Closes (text_of source.now) (place_of source.now r.0)) }
    ensures decides { DecidesPartAt source.now level.now at keyed_rule result }
    ensures placed { IfErr result (IsPlaced source.now) }
{
    let key = read_flow_node(alloc, source, at, level, out)?;
    let colon = separation(source, key.end, level.least, level.context)?;
    match value_sign(source, colon, key.kind, level.context) {
        None => {
            push_empty(out, key.end)?;
            Ok((key.end, key.deep))
        }
        Some(after) => {
            let sign = Colon {
                at: colon,
                after,
                kind: key.kind,
            };
            let (end, deep) = read_value(alloc, source, sign, level, out)?;
            Ok((end, key.deep.max(deep)))
        }
    }
}
