//! The place of each tag in the order of tags.
ghost use Rattle.std.specs.Prelude.{◌≡◌, ◌<◌, length, IfOk};
ghost use Rattle.std.specs.List.{All};
ghost use Rattle.yaml_tree.specs.Tags.{TagsRise, IsTagAt, IsListed};
ghost use Rattle.yaml_store_rank.specs.TagPlaces.{PlacesAre};

use std::alloc::Global;
use std::collections::BTreeSet;
use yaml_store::no_memory::NoMemory;
use yaml_store::tags::Tags;

/// What the place of a tag is below.
const MOST: usize = 1_073_741_824;

/// The tags, each once, in rising order.
fn in_order<'t>(alloc: Global, tags: &'t Tags) -> Result<Vec<&'t str>, NoMemory>
    ensures rise { IfOk result (λ ordered. TagsRise ordered.items) }
    ensures whole { IfOk result (λ ordered. All (IsListed ordered.items) tags.now) }
{
    let mut found = BTreeSet::new(alloc);
    for number in 0..tags.len() {
        found.insert(tags.at(number))?;
    }
    let mut ordered = Vec::new(alloc);
    for tag in found {
        ordered.push(tag)?;
    }
    Ok(ordered)
}

/// The place of a tag that is among these.
fn place(ordered: &[&str], tag: &str) -> usize
    requires rise { TagsRise ordered.now }
    requires among { IsListed ordered.now tag.now }
    ensures at { IsTagAt ordered.now result tag.now }
    ensures within { result < length ordered.now }
{
    match ordered.binary_search(&tag) {
        Ok(place) => place,
        Err(place) => place,
    }
}

/// The place of each tag: equal for equal tags, and in the order of tags.
pub(crate) fn places(alloc: Global, tags: &Tags) -> Result<Vec<u32>, NoMemory>
    ensures ok { IfOk result (λ places. PlacesAre tags.now places.items) }
{
    let ordered = in_order(alloc, tags)?;
    if ordered.len() >= MOST {
        return Err(NoMemory);
    }
    let mut places = Vec::with_capacity(alloc, tags.len())?;
    for number in 0..tags.len() {
        places.push(place(&ordered, tags.at(number)) as u32)?;
    }
    Ok(places)
}
