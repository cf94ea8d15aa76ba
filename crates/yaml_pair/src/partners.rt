//! Pairs of places of two lists, each place in one pair at most.
ghost use Rattle.std.specs.Prelude.{◌≡◌, ◌↔◌, true, cond, length, is_some, Some, None, IfOk, OnOk};
ghost use Rattle.std.specs.List.{slice_get};
ghost use Rattle.std.specs.BTreeMap.{get};
ghost use Rattle.yaml_pair.specs.Named.{Name, name_cmp, is_one, Stands, OnlyFree, JoinsTo, flat, partner_in};

use std::alloc::{AllocError, Global};
use std::collections::BTreeMap;

/// For each place of either list the other place of its pair, if it has one.
#[derive(Drop)]
pub(crate) struct Partners {
    pub lefts: Vec<Option<usize>>,
    pub rights: Vec<Option<usize>>,
}

/// Whether a place is there and in no pair.
pub(crate) fn is_free(places: &[Option<usize>], place: usize) -> bool
    ensures { (result ≡ true) ↔ (slice_get places.now place ≡ Some None) }
{
    match places.get(place) {
        Some(partner) => partner.is_none(),
        None => false,
    }
}

impl Partners {
    ghost use Rattle.std.specs.Prelude.{◌≡◌, Some, None, IfOk};
    ghost use Rattle.std.specs.List.{slice_get};
    ghost use Rattle.yaml_pair.specs.Named.{IsNone, Takes, Keeps};

    /// No pairs of lists of so many items.
    pub(crate) fn none(alloc: Global, lefts: usize, rights: usize) -> Result<Partners, AllocError>
        ensures ok { IfOk result (λ it. IsNone it lefts rights) }
    {
        Ok(Partners {
            lefts: vec![in alloc; None; lefts]?,
            rights: vec![in alloc; None; rights]?,
        })
    }

    /// Makes these places a pair, if neither is in one.
    pub(crate) fn take(&mut self, left: usize, right: usize)
        ensures takes { slice_get self.old.lefts.items left ≡ Some None → slice_get self.old.rights.items right ≡ Some None → Takes self.old self.new left right }
        ensures keeps { Keeps self.old self.new }
    {
        if is_free(&self.lefts, left) && is_free(&self.rights, right) {
            self.lefts[left] = Some(right);
            self.rights[right] = Some(left);
        }
    }

    /// The pairs in the order of their left places.
    pub(crate) fn pairs(&self, alloc: Global) -> Result<Vec<(usize, usize)>, AllocError> {
        let mut pairs = Vec::new(alloc);
        for (left, partner) in self.lefts.iter().enumerate() {
            if let Some(right) = partner {
                pairs.push((left, *right))?;
            }
        }
        Ok(pairs)
    }
}

/// What tells an item from others: two items with the same are a pair where each side has it once.
pub(crate) type Name<'g> = (&'g str, usize, Option<usize>, usize);

/// The place of the item that has a name, or none where several have it.
type Places<'g> = BTreeMap<Name<'g>, Option<usize>>;

/// Whether a name has stood before.
fn is_known<'g>(places: &Places<'g>, name: &Name<'g>) -> bool
    ensures { result ≡ is_some (get name_cmp places.now name.now) }
{
    places.get(name).is_some()
}

/// Notes the place of a name, or that several have it.
fn note<'g>(
    places: &mut Places<'g>,
    name: &Name<'g>,
    alone: Option<usize>,
) -> Result<(), AllocError>
    ensures ok { OnOk result ((q : Name) → get name_cmp places.new q ≡ cond (is_one name.now q) (Some alone) (get name_cmp places.old q)) }
{
    places.insert(*name, alone)?;
    Ok(())
}

/// The places of names.
fn places_of<'g>(alloc: Global, names: &[Option<Name<'g>>]) -> Result<Places<'g>, AllocError>
    ensures ok { IfOk result (λ places. (q : Name) → Stands is_one names.now (length names.now) q (get name_cmp places q)) }
{
    let mut places = BTreeMap::new(alloc);
    for (place, name) in names.iter().enumerate() {
        if let Some(name) = name {
            let alone = if is_known(&places, name) {
                None
            } else {
                Some(place)
            };
            note(&mut places, name, alone)?;
        }
    }
    Ok(places)
}

/// The place of the one item that has this name.
fn lone_place<'g>(places: &Places<'g>, name: &Name<'g>) -> Option<usize>
    ensures { result ≡ flat (get name_cmp places.now name.now) }
{
    match places.get(name) {
        Some(place) => *place,
        None => None,
    }
}

/// The right place of a left name that stands once in either list.
fn partner_in<'g>(lefts: &Places<'g>, rights: &Places<'g>, name: &Option<Name<'g>>) -> Option<usize>
    ensures { result ≡ partner_in (get name_cmp lefts.now) (get name_cmp rights.now) name.now }
{
    match name {
        Some(name) => match lone_place(lefts, name) {
            Some(_) => lone_place(rights, name),
            None => None,
        },
        None => None,
    }
}

/// Pairs the places of names that stand once in either list. A place that is in a pair has no name there.
pub(crate) fn join<'g>(
    alloc: Global,
    partners: &mut Partners,
    lefts: &[Option<Name<'g>>],
    rights: &[Option<Name<'g>>],
) -> Result<(), AllocError>
    requires lefts { OnlyFree lefts.now partners.old.lefts.items }
    requires rights { OnlyFree rights.now partners.old.rights.items }
    ensures ok { OnOk result (JoinsTo lefts.now rights.now (length lefts.now) partners.old partners.new) }
{
    let left_places = places_of(alloc, lefts)?;
    let right_places = places_of(alloc, rights)?;
    for (left, name) in lefts.iter().enumerate() {
        if let Some(right) = partner_in(&left_places, &right_places, name) {
            partners.take(left, right);
        }
    }
    Ok(())
}
