//! Flow mappings (YAML 1.2.2, 7.4.2).
ghost use Rattle.std.specs.Prelude.{◌≡◌, IfOk, IfErr};
ghost use Rattle.yaml_text.specs.EventModel.{context_of};
ghost use Rattle.yaml_definitions.specs.grammar.Characters.{c-mapping-start};
ghost use Rattle.yaml_definitions.specs.grammar.Separation.{inner, flow_in};
ghost use Rattle.yaml_layout.specs.declared.flow.Kind.TheVariants.{Json};
ghost use Rattle.yaml_text.specs.Placed.{IsPlaced};
ghost use Rattle.yaml_sink.specs.SinkModel.{holds_of};
ghost use Rattle.yaml_layout.specs.NodeLevels.{content_rule, ReadsNode};
ghost use Rattle.yaml_flow.specs.Levels.{StartsCollection, StartsPart, EndsPast, entries_rule, mapping_rule, ReadsPart, DecidesCollectionAt, DecidesPartsAt};

use crate::flow::entries::read_entry;
use crate::flow::signs::{inner, part_gap};
use std::alloc::Global;
use yaml_layout::flow::{FlowNode, Kind};
use yaml_layout::level::Level;
use yaml_layout::line::separation;
use yaml_sink::push::{push_flow_mapping, push_mapping_end};
use yaml_sink::sink::{Keeper, Sink};
use yaml_text::chars::Chars;
use yaml_text::fault::Fault;
use yaml_text::lines::unusable;
use yaml_text::places::accept;

/// A flow mapping, after its brace.
#[inline(never)]
#[cycle(nodes)]
pub fn read_mapping<'a, K: Keeper>(
    alloc: Global,
    source: &Chars<'a>,
    at: usize,
    inside: usize,
    level: &Level<'_, 'a>,
    out: &mut Sink<'a, K>,
) -> Result<FlowNode, Fault>
    requires { StartsCollection source.now level.now c-mapping-start at inside }
    ensures ends { IfOk result (λ node. EndsPast source.now level.now at node.end node.deep) }
    ensures reads { ReadsNode content_rule source.now level.now at (holds_of K.holds) out.old out.new result }
    ensures kind { IfOk result (λ node. node.kind ≡ Json) }
    ensures decides { inner (context_of level.now.context) ≡ flow_in → DecidesCollectionAt source.now level.now at mapping_rule result }
    ensures placed { IfErr result (IsPlaced source.now) }
{
    push_flow_mapping(out, at)?;
    let first = separation(source, inside, level.least, level.context)?;
    let within = Level {
        context: inner(level.context),
        room: level.room - 1,
        ..*level
    };
    let (end, deep) = read_entries(alloc, source, first, &within, out)?;
    push_mapping_end(out, end - 1)?;
    Ok(FlowNode {
        end,
        deep: deep + 1,
        kind: Kind::Json,
    })
}

/// The entries of a flow mapping, up to its closing brace: the border after it, and how many collections are open at once.
#[cycle(nodes)]
fn read_entries<'a, K: Keeper>(
    alloc: Global,
    source: &Chars<'a>,
    first: usize,
    level: &Level<'_, 'a>,
    out: &mut Sink<'a, K>,
) -> Result<(usize, u32), Fault>
    requires { StartsPart source.now level.now first }
    ensures ends { IfOk result (λ r. EndsPast source.now level.now first r.0 r.1) }
    ensures reads { ReadsPart entries_rule source.now level.now first (holds_of K.holds) out.old out.new result }
    ensures decides { DecidesPartsAt source.now level.now first entries_rule result }
    ensures placed { IfErr result (IsPlaced source.now) }
{
    let mut here = first;
    let mut most: u32 = 0;
    'entries: loop {
        match accept(source, here, '}') {
            Some(end) => return Ok((end, most)),
            None => {
                let (entry, deep) = read_entry(alloc, source, here, level, out)?;
                most = most.max(deep);
                let after = part_gap(source, entry, level.least, level.context)?;
                match accept(source, after, '}') {
                    Some(end) => return Ok((end, most)),
                    None => match accept(source, after, ',') {
                        Some(to) => here = separation(source, to, level.least, level.context)?,
                        None => return Err(unusable(source, after)),
                    },
                }
            }
        }
    }
}
