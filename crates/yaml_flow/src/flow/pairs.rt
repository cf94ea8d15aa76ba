//! Single pairs, items of a flow sequence that are a mapping each (YAML 1.2.2, 7.4.1).
ghost use Rattle.std.specs.Prelude.{◌<◌, ◌⊎◌, IfOk, IfErr};
ghost use Rattle.yaml_text.specs.Source.{text_of, place_of};
ghost use Rattle.yaml_text.specs.Lines.{Inside};
ghost use Rattle.law_one_reading.specs.Follows.{Closes};
ghost use Rattle.yaml_text.specs.Placed.{IsPlaced};
ghost use Rattle.yaml_sink.specs.SinkModel.{holds_of};
ghost use Rattle.yaml_layout.specs.NodeLevels.{Ends};
ghost use Rattle.yaml_flow.specs.Levels.{StartsKey, StartsAsked, StartsEmpty, item_rule, pair_rule, ReadsPart, DecidesPartAt};

use crate::flow::entries::{Colon, read_asked, read_value};
use crate::flow::nodes::read_flow_node;
use crate::flow::signs::key_colon;
use std::alloc::Global;
use yaml_layout::flow::Kind;
use yaml_layout::level::Level;
use yaml_sink::push::{push_empty, push_flow_mapping, push_mapping_end};
use yaml_sink::sink::{Keeper, Sink};
use yaml_text::chars::Chars;
use yaml_text::fault::Fault;
use yaml_text::lines::unusable;

/// A pair whose key follows a `?` (7.4.2).
#[inline(never)]
#[cycle(nodes)]
pub fn read_asked_pair<'a, K: Keeper>(
    alloc: Global,
    source: &Chars<'a>,
    at: usize,
    after: usize,
    level: &Level<'_, 'a>,
    out: &mut Sink<'a, K>,
) -> Result<(usize, u32), Fault>
    requires { StartsAsked source.now level.now at after }
    ensures ends { IfOk result (λ r. Ends source.now level.now at r.0 r.1) }
    ensures reads { ReadsPart item_rule source.now level.now at (holds_of K.holds) out.old out.new result }
    ensures next { IfOk result (λ r. Inside (text_of source.now) (place_of source.now r.0) ⊎ Closes (text_of source.now) (place_of source.now r.0)) }
    ensures decides { DecidesPartAt source.now level.now at item_rule result }
    ensures placed { IfErr result (IsPlaced source.now) }
{
    if level.room == 0 {
        return Err(Fault::TooDeep(source.pos(at)));
    }
    push_flow_mapping(out, at)?;
    let inside = Level {
        room: level.room - 1,
        ..*level
    };
    let (end, deep) = read_asked(alloc, source, after, &inside, out)?;
    push_mapping_end(out, end)?;
    Ok((end, deep + 1))
}

/// A pair without a key, from its colon on (7.4.2).
#[inline(never)]
#[cycle(nodes)]
pub fn read_empty_pair<'a, K: Keeper>(
    alloc: Global,
    source: &Chars<'a>,
    at: usize,
    after: usize,
    level: &Level<'_, 'a>,
    out: &mut Sink<'a, K>,
) -> Result<(usize, u32), Fault>
    requires { StartsEmpty source.now level.now at after }
    ensures ends { IfOk result (λ r. Ends source.now level.now at r.0 r.1) }
    ensures reads { ReadsPart item_rule source.now level.now at (holds_of K.holds) out.old out.new result }
    ensures next { IfOk result (λ r. Inside (text_of source.now) (place_of source.now r.0) ⊎ Closes (text_of source.now) (place_of source.now r.0)) }
    ensures decides { DecidesPartAt source.now level.now at item_rule result }
    ensures placed { IfErr result (IsPlaced source.now) }
{
    if level.room == 0 {
        return Err(Fault::TooDeep(source.pos(at)));
    }
    push_flow_mapping(out, at)?;
    push_empty(out, at)?;
    let inside = Level {
        room: level.room - 1,
        ..*level
    };
    let kind = Kind::Yaml;
    let (end, deep) = read_value(alloc, source, Colon { at, after, kind }, &inside, out)?;
    push_mapping_end(out, end)?;
    Ok((end, deep + 1))
}

/// A pair that begins with its key (7.4.2).
#[inline(never)]
#[cycle(nodes)]
pub fn read_pair<'a, K: Keeper>(
    alloc: Global,
    source: &Chars<'a>,
    at: usize,
    level: &Level<'_, 'a>,
    out: &mut Sink<'a, K>,
) -> Result<(usize, u32), Fault>
    requires key { StartsKey source.now level.now at }
    requires some { 0 < level.now.room }
    ensures ends { IfOk result (λ r. Ends source.now level.now at r.0 r.1) }
    ensures reads { ReadsPart item_rule source.now level.now at (holds_of K.holds) out.old out.new result }
    ensures next { IfOk result (λ r. Inside (text_of source.now) (place_of source.now r.0) ⊎ Closes (text_of source.now) (place_of source.now r.0)) }
    ensures decides { DecidesPartAt source.now level.now at pair_rule result }
    ensures placed { IfErr result (IsPlaced source.now) }
{
    push_flow_mapping(out, at)?;
    let inside = Level {
        room: level.room - 1,
        ..*level
    };
    let key = read_flow_node(alloc, source, at, &inside, out)?;
    match key_colon(source, at, key.end, key.kind, level.context)? {
        None => Err(unusable(source, key.end)),
        Some((colon, after)) => {
            let sign = Colon {
                at: colon,
                after,
                kind: key.kind,
            };
            let (end, deep) = read_value(alloc, source, sign, &inside, out)?;
            push_mapping_end(out, end)?;
            let most = key.deep.max(deep);
            Ok((end, most + 1))
        }
    }
}
