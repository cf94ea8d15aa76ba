//! Nodes of a block, each perhaps a mapping's first key (YAML 1.2.2, 8.2).
ghost use Rattle.std.specs.Prelude.{◌⊎◌, ℕ, IfOk, IfErr, None};
ghost use Rattle.yaml_text.specs.Source.{text_of, place_of, IsBorder};
ghost use Rattle.yaml_definitions.specs.grammar.Separation.{block_in, s-l-comments as s_l_comments, StartsLine};
ghost use Rattle.yaml_definitions.specs.grammar.Nodes.{wide};
ghost use Rattle.yaml_mark.specs.HandlesModel.{handles_of};
ghost use Rattle.yaml_text.specs.LeafAnswer.{IsRefusal};
ghost use Rattle.yaml_text.specs.Placed.{IsPlaced};
ghost use Rattle.law_going_on.specs.GoingOn.{Here};
ghost use Rattle.yaml_layout.specs.NodeAnswer.{Appends, Decides};
ghost use Rattle.yaml_sink.specs.Held.{Keeps};
ghost use Rattle.yaml_sink.specs.SinkModel.{holds_of};
ghost use Rattle.yaml_layout.specs.Lines.{IsLine};
ghost use Rattle.yaml_layout.specs.PropertyDecisions.{LineGoesOn};
ghost use Rattle.yaml_layout.specs.NodeLevels.{StartsWith, Ends, bare_rule, ReadsNode, DecidesNodeAt};
ghost use Rattle.yaml_sink.specs.PropertyRules.{props_of, Disjoint};
ghost use Rattle.yaml_block.specs.BlockRules.{root_rest};
ghost use Rattle.yaml_block.specs.OuterRules.{MayBear};
ghost use Rattle.yaml_block.specs.BlockEnds.{AfterNode};
ghost use Rattle.yaml_block.specs.BlockCalls.{flow_level, StartsBlockNode, StartsDressed, StartsUnder, NoSign, EndsLine, EndsNode, node_rule, site_rule, ReadsLine, DecidesBlockNode, EndsOpened, ReadsOpened, DecidesOpenedNode};

use crate::block::collections::{read_opened, read_sequence};
use crate::block::keys::{Begun, fit_key};
use crate::block::scalars::{push_lone, read_block_scalar};
use crate::block::signs::{
    Below, Indicator, begins_below, block_sign, dash, first_colon, line_after, may_bear,
};
use std::alloc::Global;
use yaml_layout::flow::{FlowNode, FlowReader};
use yaml_layout::level::Level;
use yaml_layout::line::{Line, line_at, next_line};
use yaml_layout::properties::{Head, read_properties};
use yaml_mark::handles::Handles;
use yaml_sink::properties::Properties;
use yaml_sink::push::insert_block_mapping;
use yaml_sink::sink::{Keeper, Sink};
use yaml_text::chars::Chars;
use yaml_text::context::Ctx;
use yaml_text::fault::Fault;
use yaml_text::lines::unusable;

/// Where a node stands: the border where it begins with its outer properties, if it has any, the column in which a mapping may
/// stand, if in any, and its level.
#[derive(Clone, Copy)]
pub struct Site<'l, 'h, 'a> {
    pub from: usize,
    pub column: Option<usize>,
    pub level: &'l Level<'h, 'a>,
}

/// The line after a node that is no key, which may have its outer and own properties.
#[inline(always)]
fn finish_node<'a>(
    source: &Chars<'a>,
    end: usize,
    head: &Head<'a>,
    outer: &Properties<'a>,
) -> Result<Line, Fault>
    requires at { IsBorder source.now head.now.at }
    requires end { IsBorder source.now end }
    ensures ends { IfOk result (EndsNode source.now head.now outer.now end) }
    ensures err { IfErr result IsRefusal }
    ensures unfit { IfErr result (λ _. ((j : ℕ) → s_l_comments (text_of source.now) (place_of source.now end) j → ⊥) ⊎ (Disjoint (props_of outer.now) (props_of head.now.own) → ⊥) ⊎ (MayBear (text_of source.now) (place_of source.now head.now.at) (props_of outer.now) → ⊥)) }
    ensures placed { IfErr result (IsPlaced source.now) }
{
    let line = next_line(source, end)?;
    if outer.overlaps(&head.own) {
        return Err(unusable(source, end));
    }
    if !may_bear(source, head.at, outer) {
        return Err(unusable(source, end));
    }
    Ok(line)
}

/// How far a node was read: whole, up to a line; a mapping up to the colon of its first key, which is put down; or a sequence up to
/// its first dash, of which nothing is put down, with its properties.
#[derive(Drop)]
pub enum Opened<'a> {
    Whole(Line),
    Mapping { column: usize, after: usize },
    Sequence(Indicator, Properties<'a>),
}

/// A flow node of a block level, after its own properties. It is inlined, so that its level has no room of its own in the frame of
/// a call that nests.
#[inline(always)]
fn read_in_block<'a, K: Keeper, F: FlowReader>(
    alloc: Global,
    source: &Chars<'a>,
    head: &Head<'a>,
    level: &Level<'_, 'a>,
    out: &mut Sink<'a, K>,
) -> Result<FlowNode, Fault>
    requires { StartsWith source.now (flow_level level.now) head.now }
    ensures ends { IfOk result (λ node. Ends source.now (flow_level level.now) head.now.at node.end node.deep) }
    ensures reads { ReadsNode (bare_rule head.now) source.now (flow_level level.now) head.now.at (holds_of K.holds) out.old out.new result }
    ensures decides { LineGoesOn (text_of source.now) (place_of source.now head.now.end) (props_of head.now.own) → DecidesNodeAt source.now (flow_level level.now) head.now.at result }
    ensures placed { IfErr result (IsPlaced source.now) }
{
    let flow = Level {
        context: Ctx::FlowOut,
        ..*level
    };
    F::read_bare(alloc, source, head, &flow, out)
}

/// Tells a flow collection of the properties on lines above, if there are any. They are the mapping's where the collection is a key.
#[inline(always)]
fn announce_outer<'a, K: Keeper>(outer: &Properties<'a>, out: &mut Sink<'a, K>)
    ensures { Keeps (holds_of K.holds) out.old out.new }
{
    if !outer.is_none() {
        out.announce(outer);
    }
}

/// A flow node, or a mapping of which it is the first key.
#[inline(never)]
fn open_keyed<'a, K: Keeper, F: FlowReader>(
    alloc: Global,
    source: &Chars<'a>,
    head: Head<'a>,
    outer: Properties<'a>,
    site: &Site<'_, '_, 'a>,
    out: &mut Sink<'a, K>,
) -> Result<Opened<'a>, Fault>
    requires dressed { StartsDressed source.now site.now outer head }
    requires no_scalar { NoSign source.now head }
    ensures ends { IfOk result (EndsOpened source.now site.now.level.now site.now.from) }
    ensures reads { ReadsOpened (site_rule site.now outer.entry) source.now site.now.level.now site.now.from (holds_of K.holds) out.old out.new result }
    ensures decides { DecidesOpenedNode source.now site.now.level.now site.now.from (site_rule site.now outer.entry) result }
    ensures placed { IfErr result (IsPlaced source.now) }
{
    let start = out.mark();
    announce_outer(&outer, out);
    let node = read_in_block::<K, F>(alloc, source, &head, site.level, out)?;
    match first_colon(source, head.at, node.end, site.column)? {
        None => {
            let line = finish_node(source, node.end, &head, &outer)?;
            let both = outer.and(head.own);
            out.dress(start, both);
            Ok(Opened::Whole(line))
        }
        Some((column, after)) => {
            let begun = Begun { node, start };
            fit_key::<K, F>(alloc, source, &head, begun, site.level, out)?;
            out.dress(start, head.own);
            insert_block_mapping(out, start, outer, head.at)?;
            Ok(Opened::Mapping { column, after })
        }
    }
}

/// A node after its own properties, after which the line goes on: a block scalar, a flow node, or a mapping up to the colon of
/// its first key.
#[inline(always)]
fn open_dressed<'a, K: Keeper, F: FlowReader>(
    alloc: Global,
    source: &Chars<'a>,
    head: Head<'a>,
    outer: Properties<'a>,
    site: &Site<'_, '_, 'a>,
    out: &mut Sink<'a, K>,
) -> Result<Opened<'a>, Fault>
    requires { StartsDressed source.now site.now outer head }
    ensures ends { IfOk result (EndsOpened source.now site.now.level.now site.now.from) }
    ensures reads { ReadsOpened (site_rule site.now outer.entry) source.now site.now.level.now site.now.from (holds_of K.holds) out.old out.new result }
    ensures decides { DecidesOpenedNode source.now site.now.level.now site.now.from (site_rule site.now outer.entry) result }
    ensures placed { IfErr result (IsPlaced source.now) }
{
    match block_sign(source, &head) {
        None => open_keyed::<K, F>(alloc, source, head, outer, site, out),
        Some(sign) => {
            if outer.overlaps(&head.own) {
                return Err(unusable(source, sign.at));
            }
            let both = outer.and(head.own);
            let line = read_block_scalar(alloc, source, sign, both, site.level.least, out)?;
            Ok(Opened::Whole(line))
        }
    }
}

/// The start of a node whose first character stands at `at`, with its outer properties.
#[inline(never)]
#[cycle(starts)]
pub fn open_node<'a, K: Keeper, F: FlowReader>(
    alloc: Global,
    source: &Chars<'a>,
    at: usize,
    outer: Properties<'a>,
    site: &Site<'_, '_, 'a>,
    out: &mut Sink<'a, K>,
) -> Result<Opened<'a>, Fault>
    requires { StartsBlockNode source.now site.now outer at }
    ensures ends { IfOk result (EndsOpened source.now site.now.level.now site.now.from) }
    ensures reads { ReadsOpened (site_rule site.now outer.entry) source.now site.now.level.now site.now.from (holds_of K.holds) out.old out.new result }
    ensures decides { DecidesOpenedNode source.now site.now.level.now site.now.from (site_rule site.now outer.entry) result }
    ensures placed { IfErr result (IsPlaced source.now) }
{
    let (own, end) = read_properties(alloc, source, at, 0, Ctx::BlockKey, site.level.handles)?;
    match line_after(source, end, &own) {
        None => {
            let head = Head { at, end, own };
            open_dressed::<K, F>(alloc, source, head, outer, site, out)
        }
        Some(start) => {
            if outer.overlaps(&own) {
                return Err(unusable(source, end));
            }
            let line = line_at(source, start);
            let above = Head {
                at: site.from,
                end,
                own: outer.and(own),
            };
            open_under::<K, F>(alloc, source, line, above, site.level, out)
        }
    }
}

/// The start of a node on a line below its properties, or none where the line is not indented enough.
#[cycle(starts)]
fn open_under<'a, K: Keeper, F: FlowReader>(
    alloc: Global,
    source: &Chars<'a>,
    line: Line,
    above: Head<'a>,
    level: &Level<'_, 'a>,
    out: &mut Sink<'a, K>,
) -> Result<Opened<'a>, Fault>
    requires { StartsUnder source.now level.now line above }
    ensures ends { IfOk result (EndsOpened source.now level.now above.entry.at) }
    ensures reads { ReadsOpened (node_rule None) source.now level.now above.entry.at (holds_of K.holds) out.old out.new result }
    ensures decides { DecidesOpenedNode source.now level.now above.entry.at (node_rule None) result }
    ensures placed { IfErr result (IsPlaced source.now) }
{
    let Head {
        at: from,
        end,
        own: outer,
    } = above;
    match begins_below(source, line, level) {
        Below::Nothing => {
            push_lone(outer, end, out)?;
            Ok(Opened::Whole(line))
        }
        Below::Sequence(after) => {
            let first = Indicator {
                at: line.first,
                after,
                column: line.column,
            };
            Ok(Opened::Sequence(first, outer))
        }
        Below::Node => {
            let column = Some(line.column);
            let site = Site {
                from,
                column,
                level,
            };
            open_node::<K, F>(alloc, source, line.first, outer, &site, out)
        }
    }
}

/// A node whose first character stands at `at`, with its outer properties.
fn read_node<'a, K: Keeper, F: FlowReader>(
    alloc: Global,
    source: &Chars<'a>,
    at: usize,
    outer: Properties<'a>,
    site: &Site<'_, '_, 'a>,
    out: &mut Sink<'a, K>,
) -> Result<Line, Fault>
    requires { StartsBlockNode source.now site.now outer at }
    ensures ends { IfOk result (EndsLine source.now site.now.from) }
    ensures reads { ReadsLine (site_rule site.now outer.entry) source.now site.now.level.now site.now.from (holds_of K.holds) out.old out.new result }
    ensures decides { DecidesBlockNode source.now site.now.level.now site.now.from (site_rule site.now outer.entry) result }
    ensures placed { IfErr result (IsPlaced source.now) }
{
    let opened = open_node::<K, F>(alloc, source, at, outer, site, out)?;
    read_opened::<K, F>(alloc, source, opened, site.level, out)
}

/// A document's node on the line where it begins, with content on it.
pub fn read_root<'a, K: Keeper, F: FlowReader>(
    alloc: Global,
    source: &Chars<'a>,
    line: Line,
    room: u32,
    handles: Option<&Handles<'a>>,
    out: &mut Sink<'a, K>,
) -> Result<Line, Fault>
    requires line { IsLine source.now line }
    requires start { StartsLine (text_of source.now) (place_of source.now line.start) }
    ensures ends { IfOk result (EndsLine source.now line.start) }
    ensures reads { Appends (λ _. root_rest (text_of source.now) wide (handles_of handles.entry) room line.column) (place_of source.now line.start) (λ line. place_of source.now line.start) (holds_of K.holds) out.old out.new result }
    ensures decides { Decides (root_rest (text_of source.now) wide (handles_of handles.entry) room line.column) (AfterNode (text_of source.now) 0 block_in) (place_of source.now line.start) Here (λ line. place_of source.now line.start) result }
    ensures placed { IfErr result (IsPlaced source.now) }
{
    let first = line.first;
    let outer = Properties::none();
    let level = Level {
        handles,
        least: 0,
        context: Ctx::BlockIn,
        room,
    };
    match dash(source, first) {
        Some(after) => {
            let indicator = Indicator {
                at: first,
                after,
                column: line.column,
            };
            read_sequence::<K, F>(alloc, source, indicator, outer, &level, out)
        }
        None => {
            let site = Site {
                from: first,
                column: Some(line.column),
                level: &level,
            };
            read_node::<K, F>(alloc, source, first, outer, &site, out)
        }
    }
}
