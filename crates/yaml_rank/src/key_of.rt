//! The key of a node.
ghost use Rattle.std.specs.Prelude.{◌≡◌, ◌<◌, ◌^◌, ◌+◌, length, slice_index, IfOk, IfErr};
ghost use Rattle.std.specs.List.{All};
ghost use Rattle.yaml_definitions.specs.model.Tree.{height};
ghost use Rattle.yaml_graph.specs.GraphView.{nodes_of, tree};
ghost use Rattle.yaml_tree.specs.Tags.{Texts};
ghost use Rattle.yaml_rank.specs.TagModel.{TagAt};
ghost use Rattle.yaml_rank.specs.RankModel.{Settled, KeyMade, RefusesKeys, Arranges, RefusesEntries};

use crate::entries::{arranged, entry_ranks, item_ranks, key_ranks};
use crate::key::Key;
use crate::order::{first_equal, in_order};
use crate::prefix::{prefix, rest};
use std::alloc::Global;
use yaml_graph::graph::Graph;
use yaml_graph::node::NodeKind;
use yaml_text::fault::Fault;
use yaml_tree::node::NodeId;

/// The key of a node of which all parts are ranked and whose tag has this number, and the entries of
/// a mapping in the order of their keys. Two equal keys are refused.
pub(crate) fn key_of<'g>(
    alloc: Global,
    graph: &'g Graph<'_>,
    ranks: &[usize],
    number: usize,
    tag: usize,
) -> Result<(Key<'g>, Vec<(NodeId, NodeId)>), Fault>
    requires within { number < length (nodes_of graph.now) }
    requires long { length ranks.now ≡ length (nodes_of graph.now) }
    requires settled { Settled graph.now ranks.now (height (tree graph.now number)) }
    ensures ok { IfOk result (λ made. (tags : Texts) → TagAt graph.now tags number tag → KeyMade graph.now tags ranks.now number made.0 made.1.items) }
    ensures err { IfErr result (RefusesKeys graph.now number) }
{
    match &graph.node(NodeId(number)).kind {
        NodeKind::Scalar(content) => {
            let content = content.as_str();
            let key = Key::Scalar {
                tag,
                prefix: prefix(content),
                rest: rest(content),
            };
            Ok((key, Vec::new(alloc)))
        }
        NodeKind::Sequence(items) => {
            let items = item_ranks(alloc, ranks, items)?;
            Ok((Key::Sequence { tag, items }, Vec::new(alloc)))
        }
        NodeKind::Mapping(entries) => {
            let (sorted, pairs) = entries_of(alloc, ranks, number, entries)?;
            Ok((
                Key::Mapping {
                    tag,
                    entries: pairs,
                },
                sorted,
            ))
        }
    }
}

/// The entries of the mapping of this number in the order of their keys, and their ranks.
fn entries_of(
    alloc: Global,
    ranks: &[usize],
    number: usize,
    entries: &[(NodeId, NodeId)],
) -> Result<(Vec<(NodeId, NodeId)>, Vec<(usize, usize)>), Fault>
    requires { All (λ p. (p.0.0 < length ranks.now) × (p.1.0 < length ranks.now)) entries.now }
    ensures ok { IfOk result (λ made. Arranges ranks.now entries.now made.0.items made.1.items) }
    ensures err { IfErr result (RefusesEntries ranks.now entries.now number) }
{
    let order = in_order(alloc, &key_ranks(alloc, ranks, entries)?)?;
    if let Some((first, second)) = first_equal(&order) {
        return Err(Fault::EqualKeys(number, first, second));
    }
    let sorted = arranged(alloc, entries, &order)?;
    let pairs = entry_ranks(alloc, ranks, &sorted)?;
    Ok((sorted, pairs))
}
