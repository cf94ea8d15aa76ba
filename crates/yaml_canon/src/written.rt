//! The nodes of a stream's bytes, ranked, with their entries as they are written.
ghost use Rattle.std.specs.Prelude.{[], ◌∷◌, List, length, IfOk, IfErr};
ghost use Rattle.yaml_definitions.specs.model.Serial.{Document};
ghost use Rattle.yaml_definitions.specs.model.Tree.{Tree};
ghost use Rattle.yaml_tree_builder.specs.BuilderModel.{IsForest};
ghost use Rattle.yaml_store_rank.specs.Written.{ShowsStore};
ghost use Rattle.yaml_canon.specs.Claims.{CanonicalRefuses};
ghost use Rattle.yaml_canon.specs.Read.{HasRoots};
ghost use Rattle.yaml_canon.specs.Refused.{Refuses};
ghost use Rattle.yaml_canon.specs.RefusedRanks.{RefusesRanks};
ghost use Rattle.yaml_canon.specs.Written.{ShowsStream};

use crate::forest::forest_of;
use crate::ranks::in_stream;
use std::alloc::Global;
use yaml_store_rank::{RankedForests, rank_written};
use yaml_text::fault::Fault;
use yaml_tree_builder::Forest;

/// The nodes of a forest of one stream, ranked. Refused are two equal keys of a mapping, by the number of its node in the stream.
fn written_forest<'s>(alloc: Global, forest: Forest<'s>) -> Result<RankedForests<'s>, Fault>
    requires { (ts : List Tree) × HasRoots ts forest }
    ensures ok { IfOk result (ShowsStore forest.entry.store forest.entry.roots.items (length forest.entry.roots.items ∷ [])) }
    ensures err { (ds : List Document) → IsForest ds forest.entry → IfErr result (RefusesRanks ds) }
{
    let Forest {
        store,
        roots,
        firsts,
    } = forest;
    let mut ends = Vec::with_capacity(alloc, 1)?;
    ends.push(roots.len())?;
    match rank_written(alloc, store, &roots, ends) {
        Ok(ranked) => Ok(ranked),
        Err(fault) => Err(in_stream(fault, &firsts)),
    }
}

/// The nodes of the stream that these bytes are, ranked.
///
/// # Errors
/// Those of `canonical`, but for 20: no text is written.
pub fn ranked_stream<'b>(alloc: Global, bytes: &'b [u8]) -> Result<RankedForests<'b>, Fault>
    ensures shows { IfOk result (ShowsStream bytes.now) }
    ensures why { IfErr result (Refuses CanonicalRefuses bytes.now) }
{
    let forest = forest_of(alloc, bytes)?;
    written_forest(alloc, forest)
}
