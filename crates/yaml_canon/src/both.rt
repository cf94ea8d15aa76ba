//! Two streams in one store.
ghost use Rattle.std.specs.Prelude.{ℕ, List, IfOk, IfErr};
ghost use Rattle.yaml_canon.specs.Both.{HasBoth, HaveRanks};
ghost use Rattle.yaml_canon.specs.Comparing.{IsComposed};
ghost use Rattle.yaml_canon.specs.Refused.{RefusesSide};

use crate::forest::{forest_of, kept_source, lent, source_of};
use crate::ranks::{RankedForest, ranked_roots};
use crate::sides::with_side;
use std::alloc::Global;
use yaml_store_composer::Composing;
use yaml_text::Side;
use yaml_text::fault::Fault;
use yaml_tree_builder::{Forest, StreamSize};

/// The nodes of two streams: the roots of the left one, and then those of the right one.
#[derive(Drop)]
pub struct BothForests<'l> {
    pub forest: Forest<'l>,
    /// How many roots and nodes are the left one's.
    pub left: StreamSize,
}

/// The ranked nodes of two streams, and the ranks of the left one's roots and then those of the right one's.
#[derive(Drop)]
pub(crate) struct RankedBoth<'l> {
    pub(crate) forest: RankedForest<'l>,
    /// How many roots are the left one's.
    pub(crate) middle: usize,
}

/// Why the right side has no forest where both have none together.
fn none_of_right(alloc: Global, right: &[u8]) -> (Side, Fault)
    ensures { (left : List ℕ) → IsComposed left → RefusesSide left right.now result.0 result.1 }
{
    let fault = match forest_of(alloc, right) {
        Ok(forest) => {
            drop(forest);
            return (Side::Left, Fault::OutOfMemory);
        }
        Err(fault) => fault,
    };
    (Side::Right, fault)
}

/// The nodes of two streams in one store: those of the left stream, then those of the right one.
///
/// # Errors
/// What `canonical` rejects of the left side before it looks for equal keys (1 to 18), and otherwise of the right side. 21 if memory
/// does not suffice, or a number does not fit in 32 bits: of the left side once both are read.
pub fn forest_of_both<'l>(
    alloc: Global,
    left: &'l [u8],
    right: &[u8],
) -> Result<BothForests<'l>, (Side, Fault)>
    ensures both { IfOk result (HasBoth left.now right.now) }
    ensures why { IfErr result (λ refusal. RefusesSide left.now right.now refusal.0 refusal.1) }
{
    let left_text = match source_of(left) {
        Ok(text) => text,
        Err(why) => return Err((Side::Left, why)),
    };
    let empty = match Composing::new(alloc, lent(&left_text)) {
        Ok(empty) => empty,
        Err(why) => return Err((Side::Left, Fault::from(why))),
    };
    let mut first = match kept_source(alloc, empty, &left_text) {
        Ok(first) => first,
        Err(fault) => return Err((Side::Left, fault)),
    };
    let size = match first.documents() {
        Ok(size) => size,
        Err(why) => return Err((Side::Left, why)),
    };
    let right_text = match source_of(right) {
        Ok(text) => text,
        Err(why) => return Err((Side::Right, why)),
    };
    let both = match kept_source(alloc, first, &right_text) {
        Ok(both) => both,
        Err(why) => return Err((Side::Right, why)),
    };
    let Ok(forest) = both.finish() else {
        return Err(none_of_right(alloc, right));
    };
    Ok(BothForests { forest, left: size })
}

/// The ranked nodes of the streams that both sides are, in one store, so that their ranks can be compared.
///
/// # Errors
/// Those of `forest_of_both` (1 to 18 and 21), and the lowest mapping of both sides with two equal keys (19).
pub(crate) fn ranked_both<'l>(
    alloc: Global,
    left: &'l [u8],
    right: &[u8],
) -> Result<RankedBoth<'l>, (Side, Fault)>
    ensures both { IfOk result (HaveRanks left.now right.now) }
    ensures why { IfErr result (λ refusal. RefusesSide left.now right.now refusal.0 refusal.1) }
{
    let BothForests { forest, left: size } = forest_of_both(alloc, left, right)?;
    match ranked_roots(alloc, forest) {
        Ok(ranked) => Ok(RankedBoth {
            forest: ranked,
            middle: size.documents,
        }),
        Err(fault) => Err(with_side(size.nodes, fault)),
    }
}
