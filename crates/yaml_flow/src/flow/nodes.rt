//! Flow nodes (YAML 1.2.2, 7.5).
ghost use Rattle.std.specs.Prelude.{◌≡◌, IfSome, IfOk, IfErr};
ghost use Rattle.yaml_text.specs.Source.{text_of, place_of};
ghost use Rattle.yaml_text.specs.EventModel.{context_of};
ghost use Rattle.yaml_definitions.specs.grammar.Separation.{flow_in, flow_out};
ghost use Rattle.yaml_text.specs.Placed.{IsPlaced};
ghost use Rattle.yaml_sink.specs.SinkModel.{holds_of};
ghost use Rattle.yaml_layout.specs.PropertyDecisions.{LineGoesOn};
ghost use Rattle.yaml_sink.specs.PropertyRules.{props_of};
ghost use Rattle.yaml_layout.specs.NodeLevels.{StartsNode, StartsWith, Ends, node_rule, content_rule, bare_rule, ReadsNode, FindsNode, DecidesNodeAt};
ghost use Rattle.yaml_flow.specs.Levels.{EndsPast, DecidesContentAt};

use crate::flow::mapping::read_mapping;
use crate::flow::scalars::{Quote, push_lone, read_alias, read_plain_node, read_quoted_node};
use crate::flow::sequence::read_sequence;
use crate::flow::signs::{First, first_of};
use std::alloc::Global;
use yaml_layout::flow::FlowNode;
use yaml_layout::level::Level;
use yaml_layout::line::separation;
use yaml_layout::properties::{Head, read_properties};
use yaml_sink::properties::Properties;
use yaml_sink::sink::{Keeper, Sink};
use yaml_text::chars::Chars;
use yaml_text::fault::Fault;
use yaml_text::lines::unusable;
use yaml_text::places::accept;

/// A flow node.
#[inline(always)]
#[cycle(nodes)]
pub fn read_flow_node<'a, K: Keeper>(
    alloc: Global,
    source: &Chars<'a>,
    at: usize,
    level: &Level<'_, 'a>,
    out: &mut Sink<'a, K>,
) -> Result<FlowNode, Fault>
    requires { StartsNode source.now level.now at }
    ensures ends { IfOk result (λ node. Ends source.now level.now at node.end node.deep) }
    ensures reads { ReadsNode node_rule source.now level.now at (holds_of K.holds) out.old out.new result }
    ensures decides { context_of level.now.context ≡ flow_in → DecidesNodeAt source.now level.now at result }
    ensures placed { IfErr result (IsPlaced source.now) }
{
    let start = out.mark();
    let (own, end) = read_properties(alloc, source, at, level.least, level.context, level.handles)?;
    let head = Head { at, end, own };
    let node = read_bare(alloc, source, &head, level, out)?;
    out.dress(start, head.own);
    Ok(node)
}

/// A flow node after its own properties: an alias, its content, or nothing. The properties are not in its events yet.
#[inline(never)]
#[cycle(nodes)]
pub fn read_bare<'a, K: Keeper>(
    alloc: Global,
    source: &Chars<'a>,
    head: &Head<'a>,
    level: &Level<'_, 'a>,
    out: &mut Sink<'a, K>,
) -> Result<FlowNode, Fault>
    requires { StartsWith source.now level.now head.now }
    ensures ends { IfOk result (λ node. Ends source.now level.now head.now.at node.end node.deep) }
    ensures reads { ReadsNode (bare_rule head.now) source.now level.now head.now.at (holds_of K.holds) out.old out.new result }
    ensures decides { (context_of level.now.context ≡ flow_out → LineGoesOn (text_of source.now) (place_of source.now head.now.end) (props_of head.now.own)) → DecidesNodeAt source.now level.now head.now.at result }
    ensures placed { IfErr result (IsPlaced source.now) }
{
    if head.own.is_none() {
        if let Some(_) = accept(source, head.at, '*') {
            return read_alias(alloc, source, head.at, out);
        }
        return match read_content(alloc, source, head.at, &head.own, level, out)? {
            Some(node) => Ok(node),
            None => Err(unusable(source, head.at)),
        };
    }
    let start = separation(source, head.end, level.least, level.context)?;
    if start == head.end {
        return push_lone(source, head.end, out);
    }
    match read_content(alloc, source, start, &head.own, level, out)? {
        Some(node) => Ok(node),
        None => push_lone(source, head.end, out),
    }
}

/// A node's content, if any begins here. A collection is told of the node's own properties before it begins.
#[inline(always)]
#[cycle(nodes)]
fn read_content<'a, K: Keeper>(
    alloc: Global,
    source: &Chars<'a>,
    at: usize,
    own: &Properties<'a>,
    level: &Level<'_, 'a>,
    out: &mut Sink<'a, K>,
) -> Result<Option<FlowNode>, Fault>
    requires { StartsNode source.now level.now at }
    ensures ends { IfOk result (λ found. IfSome found (λ node. EndsPast source.now level.now at node.end node.deep)) }
    ensures reads { FindsNode content_rule source.now level.now at (holds_of K.holds) out.old out.new result }
    ensures decides { DecidesContentAt source.now level.now at result }
    ensures placed { IfErr result (IsPlaced source.now) }
{
    match first_of(source, at) {
        First::Sequence(inside) => {
            if level.room == 0 {
                return Err(Fault::TooDeep(source.pos(at)));
            }
            out.announce(own);
            let node = read_sequence(alloc, source, at, inside, level, out)?;
            Ok(Some(node))
        }
        First::Mapping(inside) => {
            if level.room == 0 {
                return Err(Fault::TooDeep(source.pos(at)));
            }
            out.announce(own);
            let node = read_mapping(alloc, source, at, inside, level, out)?;
            Ok(Some(node))
        }
        First::Single => {
            let node = read_quoted_node(alloc, source, at, Quote::Single, level, out)?;
            Ok(Some(node))
        }
        First::Double => {
            let node = read_quoted_node(alloc, source, at, Quote::Double, level, out)?;
            Ok(Some(node))
        }
        First::Other => read_plain_node(alloc, source, at, level, out),
    }
}
