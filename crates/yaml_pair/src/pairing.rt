//! The items of two lists between their equal ends.
ghost use Rattle.std.specs.Prelude.{◌≡◌, ◌≤◌, IfOk};
ghost use Rattle.yaml_pair.specs.Names.{namings};
ghost use Rattle.yaml_pair.specs.Named.{Within, weight_of, texts_of, PairsNamed};

use crate::asked::Asked;
use crate::equal::pair_equal;
use crate::like::pair_alike;
use crate::names::{columns, pair_named};
use crate::nodes::width;
use crate::partners::Partners;
use crate::stay::stayers;
use crate::steps::steps_of;
use crate::turn::pair_in_turn;
use std::alloc::{AllocError, Global};
use yaml_path::places::Places;
use yaml_store_rank::RankedForests;
use yaml_tree::node::NodeId;

/// So many entries are looked at, however few nodes there are.
const ENTRIES: usize = 1_048_576;

/// How many entries the items of both lists have together.
fn weight(forests: &RankedForests<'_>, sides: (&[NodeId], &[NodeId])) -> usize
    ensures { Within forests.now sides.entry.0.now sides.entry.1.now → result ≤ weight_of forests.now sides.entry.0.now sides.entry.1.now }
{
    let mut sum: usize = 0;
    for item in sides.0 {
        sum = sum.saturating_add(width(forests, *item));
    }
    for item in sides.1 {
        sum = sum.saturating_add(width(forests, *item));
    }
    sum
}

/// The pairs of two lists that stand behind equal ends of this length, and their single items, in the order of the right list: steps,
/// each with whether it is a pair that moved. Equal items that stand equally often are pairs, then those of a name that stands once on
/// either side, one naming after the other, then those that have much in common, and then, between pairs that stay, those that stand in
/// turn. There are no steps where aliases and equal parts repeat so much that the items have more than 1,048,576 entries, and more than
/// twice as many as there are nodes.
pub fn pair_items(
    alloc: Global,
    forests: &RankedForests<'_>,
    sides: (&[NodeId], &[NodeId]),
    first: usize,
    asked: Asked<'_>,
    documents: bool,
) -> Result<Vec<(Places, bool)>, AllocError>
    ensures named { IfOk result (λ steps. PairsNamed forests.now sides.entry.0.now sides.entry.1.now first (namings (texts_of asked.entry.by.now) documents) steps.items) }
{
    let (lefts, rights) = sides;
    if weight(forests, sides) > forests.len().saturating_mul(2).max(ENTRIES) {
        return Ok(Vec::new(alloc));
    }
    let columns = columns(alloc, asked, documents)?;
    let mut partners = Partners::none(alloc, lefts.len(), rights.len())?;
    pair_equal(alloc, forests, lefts, rights, &mut partners)?;
    pair_named(alloc, forests, lefts, rights, &columns, &mut partners)?;
    pair_alike(alloc, forests, lefts, rights, &mut partners)?;
    let pairs = partners.pairs(alloc)?;
    let stay = stayers(alloc, &pairs, rights.len())?;
    pair_in_turn(alloc, forests, &columns, sides, &stay, &mut partners)?;
    let pairs = partners.pairs(alloc)?;
    let stay = stayers(alloc, &pairs, rights.len())?;
    steps_of(alloc, &partners, &stay, first)
}
