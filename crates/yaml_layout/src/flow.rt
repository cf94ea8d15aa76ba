//! Flow nodes that were read, and what reads them (YAML 1.2.2, 7.4 and 7.5).
ghost use Rattle.std.specs.Prelude.{◌≡◌, IfSome, IfOk, IfErr};
ghost use Rattle.yaml_definitions.specs.grammar.Separation.{flow_in, flow_out};
ghost use Rattle.yaml_text.specs.Source.{text_of, place_of};
ghost use Rattle.yaml_text.specs.EventModel.{context_of};
ghost use Rattle.yaml_text.specs.Placed.{IsPlaced};
ghost use Rattle.yaml_sink.specs.SinkModel.{holds_of};
ghost use Rattle.yaml_sink.specs.PropertyRules.{props_of};
ghost use Rattle.yaml_layout.specs.PropertyDecisions.{LineGoesOn};
ghost use Rattle.yaml_layout.specs.NodeLevels.{StartsNode, StartsWith, Ends, EndsAlone, node_rule, content_rule, bare_rule, ReadsNode, FindsNode, DecidesNodeAt, DecidesPlainAt};

use crate::level::Level;
use crate::properties::Head;
use std::alloc::Global;
use yaml_sink::sink::{Keeper, Sink};
use yaml_text::chars::Chars;
use yaml_text::fault::Fault;

/// Which of the two kinds of flow nodes (7.5): after a key that is like JSON no separation needs to follow the colon.
#[derive(Clone, Copy)]
pub enum Kind {
    Yaml,
    Json,
}

/// A flow node that was read: the border after it, how many collections are open in it at once, and its kind.
#[derive(Clone, Copy)]
pub struct FlowNode {
    pub end: usize,
    pub deep: u32,
    pub kind: Kind,
}

/// What reads flow nodes. Who reads block nodes takes it by its type, and stands beside it.
pub trait FlowReader {
    /// A flow node.
    fn read_flow_node<'a, K: Keeper>(
        alloc: Global,
        source: &Chars<'a>,
        at: usize,
        level: &Level<'_, 'a>,
        out: &mut Sink<'a, K>,
    ) -> Result<FlowNode, Fault>
        requires { StartsNode source.now level.now at }
        ensures ends { IfOk result (λ node. Ends source.now level.now at node.end node.deep) }
        ensures reads { ReadsNode node_rule source.now level.now at (holds_of K.holds) out.old out.new result }
        ensures decides { context_of level.now.context ≡ flow_in → DecidesNodeAt source.now level.now at result }
        ensures placed { IfErr result (IsPlaced source.now) };

    /// A flow node after its own properties: an alias, its content, or nothing. The properties are not in its events yet.
    fn read_bare<'a, K: Keeper>(
        alloc: Global,
        source: &Chars<'a>,
        head: &Head<'a>,
        level: &Level<'_, 'a>,
        out: &mut Sink<'a, K>,
    ) -> Result<FlowNode, Fault>
        requires { StartsWith source.now level.now head.now }
        ensures ends { IfOk result (λ node. Ends source.now level.now head.now.at node.end node.deep) }
        ensures reads { ReadsNode (bare_rule head.now) source.now level.now head.now.at (holds_of K.holds) out.old out.new result }
        ensures decides { (context_of level.now.context ≡ flow_out → LineGoesOn (text_of source.now) (place_of source.now head.now.end) (props_of head.now.own)) → DecidesNodeAt source.now level.now head.now.at result }
        ensures placed { IfErr result (IsPlaced source.now) };

    /// A plain scalar, if one begins here.
    fn read_plain_node<'a, K: Keeper>(
        alloc: Global,
        source: &Chars<'a>,
        at: usize,
        level: &Level<'_, 'a>,
        out: &mut Sink<'a, K>,
    ) -> Result<Option<FlowNode>, Fault>
        requires { StartsNode source.now level.now at }
        ensures ends { IfOk result (λ found. IfSome found (EndsAlone source.now at)) }
        ensures reads { FindsNode content_rule source.now level.now at (holds_of K.holds) out.old out.new result }
        ensures decides { DecidesPlainAt source.now level.now at result }
        ensures placed { IfErr result (IsPlaced source.now) };
}
