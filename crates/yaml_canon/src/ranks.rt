//! The ranks of a stream's bytes.
ghost use Rattle.std.specs.Prelude.{List, IfOk, IfErr};
ghost use Rattle.yaml_definitions.specs.model.Serial.{Document};
ghost use Rattle.yaml_definitions.specs.model.Tree.{Tree};
ghost use Rattle.yaml_tree_builder.specs.BuilderModel.{IsForest, AreForests};
ghost use Rattle.yaml_canon.specs.Read.{HasRoots};
ghost use Rattle.yaml_canon.specs.Ranks.{RanksOf, HasRanks};
ghost use Rattle.yaml_canon.specs.Claims.{CanonicalRefuses};
ghost use Rattle.yaml_canon.specs.Refused.{Refuses};
ghost use Rattle.yaml_canon.specs.RefusedRanks.{IsInStream, RefusesRanks, RefusesBothRanks};

use crate::forest::forest_of;
use std::alloc::Global;
use yaml_store_rank::{Ranked, compact_rank};
use yaml_text::fault::Fault;
use yaml_tree_builder::Forest;

/// The ranked nodes of a stream, and the ranks of its documents' roots.
#[derive(Drop)]
pub struct RankedForest<'s> {
    pub ranked: Ranked<'s>,
    pub roots: Vec<u32>,
}

/// Equal keys of a node of a store, told of the first node of the stream that it stands for.
pub(crate) fn in_stream(fault: Fault, firsts: &[u32]) -> Fault
    ensures { IsInStream firsts.now fault result }
{
    let Fault::EqualKeys(stored, first, second) = fault else {
        return Fault::OutOfMemory;
    };
    match firsts.get(stored) {
        Some(node) => Fault::EqualKeys(*node as usize, first, second),
        None => Fault::OutOfMemory,
    }
}

/// A forest with the ranks of its nodes, those of the roots in place of the roots. Refused are two equal keys of a mapping, by the
/// number of its node in the stream, or in both of two streams.
pub(crate) fn ranked_roots<'s>(alloc: Global, forest: Forest<'s>) -> Result<RankedForest<'s>, Fault>
    requires { (ts : List Tree) × HasRoots ts forest }
    ensures ok { (ts : List Tree) → HasRoots ts forest.entry → IfOk result (RanksOf ts) }
    ensures err { (ds : List Document) → IsForest ds forest.entry → IfErr result (RefusesRanks ds) }
    ensures err_both { (ds es : List Document) → AreForests ds es forest.entry → IfErr result (RefusesBothRanks ds es) }
{
    let Forest {
        store,
        mut roots,
        firsts,
    } = forest;
    match compact_rank(alloc, store) {
        Ok(ranked) => {
            ranked.take_ranks(&mut roots);
            Ok(RankedForest { ranked, roots })
        }
        Err(fault) => Err(in_stream(fault, &firsts)),
    }
}

/// The ranked nodes of the stream that these bytes are.
///
/// # Errors
/// Those of `forest_of` (1 to 18 and 21), and the lowest mapping with two equal keys (19).
pub fn ranked_forest<'b>(alloc: Global, bytes: &'b [u8]) -> Result<RankedForest<'b>, Fault>
    ensures ranks { IfOk result (HasRanks bytes.now) }
    ensures why { IfErr result (Refuses CanonicalRefuses bytes.now) }
{
    let forest = forest_of(alloc, bytes)?;
    ranked_roots(alloc, forest)
}
