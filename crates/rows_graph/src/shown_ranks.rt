//! Ranks as text.
ghost use Rattle.yaml_rank.specs.RanksView.{RanksAre};

use std::alloc::{AllocError, Global};
use std::fmt::Write;
use yaml_graph::{Graph, NodeId};
use yaml_rank::Ranks;

/// Appends the nodes of a rank, if there are any, behind those of the ranks before.
fn show_rank(
    text: &mut String,
    graph: &Graph<'_>,
    ranks: &Ranks,
    rank: usize,
) -> Result<(), AllocError>
    requires { RanksAre graph.now ranks.now }
{
    let mut sign = if text.is_empty() { "" } else { " < " };
    for number in 0..graph.len() {
        if ranks.of(NodeId(number)) == rank {
            text.push_str(sign)?;
            write!(text, "{number}")?;
            sign = "=";
        }
    }
    Ok(())
}

/// Appends the entries of a mapping in the order of their keys; nothing for other nodes.
fn show_entries(
    text: &mut String,
    number: usize,
    entries: &[(NodeId, NodeId)],
) -> Result<(), AllocError> {
    if entries.is_empty() {
        return Ok(());
    }
    write!(text, "; {number}")?;
    for (key, value) in entries {
        write!(text, " {}:{}", key.0, value.0)?;
    }
    Ok(())
}

/// What is told of a graph's ranks.
pub fn shown_ranks(alloc: Global, graph: &Graph<'_>, ranks: &Ranks) -> Result<String, AllocError>
    requires { RanksAre graph.now ranks.now }
{
    let mut text = String::new(alloc);
    for rank in 0..graph.len() {
        show_rank(&mut text, graph, ranks, rank)?;
    }
    for number in 0..graph.len() {
        show_entries(&mut text, number, ranks.sorted(NodeId(number)))?;
    }
    write!(text, "; {} visits", ranks.visits())?;
    Ok(text)
}

/// How many ranks, one more than the greatest, the nodes have, and how often one was visited.
pub fn counted_ranks(alloc: Global, graph: &Graph<'_>, ranks: &Ranks) -> Result<String, AllocError>
    requires { RanksAre graph.now ranks.now }
{
    let mut most = 0;
    for number in 0..graph.len() {
        most = most.max(ranks.of(NodeId(number)).saturating_add(1));
    }
    format!(in alloc; "{most} ranks at most, {} visits", ranks.visits())
}
