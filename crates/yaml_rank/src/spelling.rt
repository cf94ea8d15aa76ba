//! The canonical text of a graph's documents.
ghost use Rattle.std.specs.Prelude.{◌≡◌, ◌≤◌, length, IfErr, IfOk};
ghost use Rattle.yaml_definitions.specs.model.Limits.{text_limit};
ghost use Rattle.yaml_definitions.specs.canonical.Spell.{spell_bytes};
ghost use Rattle.yaml_graph.specs.GraphView.{forest};
ghost use Rattle.yaml_spell.specs.Documents.{RefusesLength};
ghost use Rattle.yaml_rank.specs.RanksView.{RanksAre};

use crate::ranked_graph::RankedGraph;
use crate::ranks::Ranks;
use std::alloc::Global;
use yaml_graph::graph::Graph;
use yaml_spell::names::Names;
use yaml_spell::ranked::RankedNodes;
use yaml_spell::spell::ranked_len;
use yaml_text::fault::Fault;

/// The length of the canonical text of a graph's documents, in bytes. The ranks must be those of the graph. No text is made.
/// `TextTooLong` if the text would be longer than the limit.
pub fn canonical_len(alloc: Global, graph: &Graph<'_>, ranks: &Ranks) -> Result<usize, Fault>
    requires { RanksAre graph.now ranks.now }
    ensures ok { IfOk result (λ len. len ≡ length (spell_bytes (forest graph.now))) }
    ensures fits { IfOk result (λ len. len ≤ text_limit) }
    ensures err { IfErr result (RefusesLength (forest graph.now)) }
{
    let view = RankedGraph { graph, ranks };
    let mut names = Names::new(alloc, view.len())?;
    ranked_len(&view, &mut names, graph.roots())
}
