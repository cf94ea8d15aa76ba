//! The keys of the nodes of one height.
ghost use Rattle.std.specs.Prelude.{◌≡◌, ◌<◌, ◌≤◌, ◌+◌, ◌^◌, length, IfOk, IfErr, OnOk};
ghost use Rattle.std.specs.List.{All};
ghost use Rattle.yaml_definitions.specs.model.Tree.{height};
ghost use Rattle.yaml_graph.specs.GraphView.{nodes_of, tree};
ghost use Rattle.yaml_rank.specs.TagModel.{TagsAre};
ghost use Rattle.yaml_rank.specs.RankModel.{Settled};
ghost use Rattle.yaml_rank.specs.LevelModel.{KeysMade, RefusesLevel};

use crate::key::Key;
use crate::key_of::key_of;
use crate::tags::{place, tag_of};
use std::alloc::Global;
use yaml_graph::graph::Graph;
use yaml_text::fault::Fault;
use yaml_tree::node::NodeId;
use yaml_tree::visits::Visits;

/// The keys of the nodes of these numbers. The entries of their mappings are put in order, and kept
/// where there is a place for them; two equal keys are refused.
pub(crate) fn keys<'g>(
    alloc: Global,
    graph: &'g Graph<'_>,
    tags: &[&str],
    ranks: &[usize],
    sorted: &mut [Vec<(NodeId, NodeId)>],
    visits: &mut Visits,
    level: &[usize],
) -> Result<Vec<(Key<'g>, usize)>, Fault>
    requires tagged { TagsAre graph.now tags.now }
    requires long { length ranks.now ≡ length (nodes_of graph.now) }
    requires settled { All (λ i. (i < length (nodes_of graph.now)) × Settled graph.now ranks.now (height (tree graph.now i))) level.now }
    requires few { visits.old.count + length level.now < 2 ^ 63 }
    ensures visited { OnOk result (visits.new.count ≡ visits.old.count + length level.now) }
    ensures ok { IfOk result (λ keys. KeysMade graph.now tags.now ranks.now level.now keys.items sorted.old sorted.new) }
    ensures err { IfErr result (RefusesLevel graph.now level.now) }
{
    let mut keys = Vec::with_capacity(alloc, level.len())?;
    let mut tag = 0;
    for number in level {
        visits.add();
        tag = place(tags, tag, tag_of(graph, *number));
        let (key, entries) = key_of(alloc, graph, ranks, *number, tag)?;
        if *number < sorted.len() {
            sorted[*number] = entries;
        }
        keys.push((key, *number))?;
    }
    Ok(keys)
}
