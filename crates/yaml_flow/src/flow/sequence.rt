//! Flow sequences (YAML 1.2.2, 7.4.1).
ghost use Rattle.std.specs.Prelude.{◌≡◌, ◌⊎◌, IfOk, IfErr};
ghost use Rattle.yaml_text.specs.Source.{text_of, place_of};
ghost use Rattle.yaml_text.specs.EventModel.{context_of};
ghost use Rattle.yaml_definitions.specs.grammar.Characters.{c-sequence-start};
ghost use Rattle.yaml_definitions.specs.grammar.Separation.{inner, flow_in};
ghost use Rattle.yaml_text.specs.Lines.{Inside};
ghost use Rattle.law_one_reading.specs.Follows.{Closes};
ghost use Rattle.yaml_layout.specs.declared.flow.Kind.TheVariants.{Json};
ghost use Rattle.yaml_text.specs.Placed.{IsPlaced};
ghost use Rattle.yaml_sink.specs.SinkModel.{holds_of};
ghost use Rattle.yaml_layout.specs.NodeLevels.{Ends, content_rule, ReadsNode};
ghost use Rattle.yaml_flow.specs.Levels.{StartsCollection, StartsPart, StartsKey, EndsPast, item_rule, items_rule, sequence_rule, ReadsPart, DecidesCollectionAt, DecidesPartAt, DecidesPartsAt};

use crate::flow::entries::{Colon, read_value};
use crate::flow::nodes::read_flow_node;
use crate::flow::pairs::{read_asked_pair, read_empty_pair, read_pair};
use crate::flow::signs::{inner, key_colon, part_gap, question_sign, value_sign};
use std::alloc::Global;
use yaml_layout::flow::{FlowNode, Kind};
use yaml_layout::level::Level;
use yaml_layout::line::separation;
use yaml_sink::push::{
    insert_flow_mapping, push_flow_sequence, push_mapping_end, push_sequence_end,
};
use yaml_sink::sink::{Keeper, Sink};
use yaml_text::chars::Chars;
use yaml_text::fault::Fault;
use yaml_text::lines::unusable;
use yaml_text::places::accept;

/// A flow sequence, after its bracket.
#[inline(never)]
#[cycle(nodes)]
pub fn read_sequence<'a, K: Keeper>(
    alloc: Global,
    source: &Chars<'a>,
    at: usize,
    inside: usize,
    level: &Level<'_, 'a>,
    out: &mut Sink<'a, K>,
) -> Result<FlowNode, Fault>
    requires { StartsCollection source.now level.now c-sequence-start at inside }
    ensures ends { IfOk result (λ node. EndsPast source.now level.now at node.end node.deep) }
    ensures reads { ReadsNode content_rule source.now level.now at (holds_of K.holds) out.old out.new result }
    ensures kind { IfOk result (λ node. node.kind ≡ Json) }
    ensures decides { inner (context_of level.now.context) ≡ flow_in → DecidesCollectionAt source.now level.now at sequence_rule result }
    ensures placed { IfErr result (IsPlaced source.now) }
{
    push_flow_sequence(out, at)?;
    let first = separation(source, inside, level.least, level.context)?;
    let within = Level {
        context: inner(level.context),
        room: level.room - 1,
        ..*level
    };
    let (end, deep) = read_items(alloc, source, first, &within, out)?;
    push_sequence_end(out, end - 1)?;
    Ok(FlowNode {
        end,
        deep: deep + 1,
        kind: Kind::Json,
    })
}

/// The items of a flow sequence, up to its closing bracket: the border after it, and how many collections are open at once.
#[cycle(nodes)]
fn read_items<'a, K: Keeper>(
    alloc: Global,
    source: &Chars<'a>,
    first: usize,
    level: &Level<'_, 'a>,
    out: &mut Sink<'a, K>,
) -> Result<(usize, u32), Fault>
    requires { StartsPart source.now level.now first }
    ensures ends { IfOk result (λ r. EndsPast source.now level.now first r.0 r.1) }
    ensures reads { ReadsPart items_rule source.now level.now first (holds_of K.holds) out.old out.new result }
    ensures decides { DecidesPartsAt source.now level.now first items_rule result }
    ensures placed { IfErr result (IsPlaced source.now) }
{
    let mut here = first;
    let mut most: u32 = 0;
    'items: loop {
        match accept(source, here, ']') {
            Some(end) => return Ok((end, most)),
            None => {
                let (item, deep) = read_item(alloc, source, here, level, out)?;
                most = most.max(deep);
                let after = part_gap(source, item, level.least, level.context)?;
                match accept(source, after, ']') {
                    Some(end) => return Ok((end, most)),
                    None => match accept(source, after, ',') {
                        Some(to) => here = separation(source, to, level.least, level.context)?,
                        None => return Err(unusable(source, after)),
                    },
                }
            }
        }
    }
}

/// An item of a flow sequence: a node, or a key and its value (7.4.1).
#[cycle(nodes)]
fn read_item<'a, K: Keeper>(
    alloc: Global,
    source: &Chars<'a>,
    at: usize,
    level: &Level<'_, 'a>,
    out: &mut Sink<'a, K>,
) -> Result<(usize, u32), Fault>
    requires { StartsPart source.now level.now at }
    ensures ends { IfOk result (λ r. Ends source.now level.now at r.0 r.1) }
    ensures reads { ReadsPart item_rule source.now level.now at (holds_of K.holds) out.old out.new result }
    ensures next { IfOk result (λ r. Inside (text_of source.now) (place_of source.now r.0) ⊎ Closes (text_of source.now) (place_of source.now r.0)) }
    ensures decides { DecidesPartAt source.now level.now at item_rule result }
    ensures placed { IfErr result (IsPlaced source.now) }
{
    if let Some(after) = question_sign(source, at, level.context) {
        return read_asked_pair(alloc, source, at, after, level, out);
    }
    match value_sign(source, at, Kind::Yaml, level.context) {
        None => read_node_item(alloc, source, at, level, out),
        Some(after) => read_empty_pair(alloc, source, at, after, level, out),
    }
}

/// An item of a flow sequence that begins with a node, which may be a key (7.4.1).
#[inline(never)]
#[cycle(nodes)]
fn read_node_item<'a, K: Keeper>(
    alloc: Global,
    source: &Chars<'a>,
    at: usize,
    level: &Level<'_, 'a>,
    out: &mut Sink<'a, K>,
) -> Result<(usize, u32), Fault>
    requires { StartsKey source.now level.now at }
    ensures ends { IfOk result (λ r. Ends source.now level.now at r.0 r.1) }
    ensures reads { ReadsPart item_rule source.now level.now at (holds_of K.holds) out.old out.new result }
    ensures next { IfOk result (λ r. Inside (text_of source.now) (place_of source.now r.0) ⊎ Closes (text_of source.now) (place_of source.now r.0)) }
    ensures decides { DecidesPartAt source.now level.now at item_rule result }
    ensures placed { IfErr result (IsPlaced source.now) }
{
    let start = out.mark();
    let key = read_flow_node(alloc, source, at, level, out)?;
    match key_colon(source, at, key.end, key.kind, level.context)? {
        None => Ok((key.end, key.deep)),
        Some((colon, after)) => {
            if level.room == 0 {
                return Err(Fault::TooDeep(source.pos(at)));
            }
            if key.deep >= level.room {
                // the fault to tell is in the key, where its last collection opens
                out.cut(start);
                return read_pair(alloc, source, at, level, out);
            }
            insert_flow_mapping(out, start, at)?;
            let inside = Level {
                room: level.room - 1,
                ..*level
            };
            let sign = Colon {
                at: colon,
                after,
                kind: key.kind,
            };
            let (end, deep) = read_value(alloc, source, sign, &inside, out)?;
            push_mapping_end(out, end)?;
            Ok((end, key.deep.max(deep) + 1))
        }
    }
}
